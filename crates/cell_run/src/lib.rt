//! A running cell: a master and servers on threads of their own, and clients in their callers' threads, which take their steps
//! through one journal.
#![tactic(auto)]

mod behind;
pub mod cell;
mod client_slot;
pub mod laws;
mod park;
pub mod park_fault;
pub mod parked;
mod resume;
pub mod resume_room;
pub mod seat_fault;
pub mod start_fault;
mod threads;
pub mod watch;

// What a program that runs a cell names.
pub use bytes::Bytes;
pub use cell::{Cell, Seat};
pub use cell_journal::Retention;
pub use cell_journal::journal_entry::{JournalEntry, StepCause};
pub use cell_nodes::node_slots::{MasterSlot, ServerSlot};
pub use cell_seats::gate::{Gate, Kind, OpenGate};
pub use cell_seats::journal::Journal;
pub use cell_seats::mailboxes::{Input, Policy};
pub use cell_seats::shared_state::Progress;
pub use gfs_types::answer::Answer;
pub use gfs_types::call::Call;
pub use gfs_types::config::Config;
pub use gfs_types::ids::{Fd, Node, ServerId};
pub use gfs_types::lists::Text;
pub use gfs_types::refusal::Refusal;
pub use gfs_types::shape::Shape;
pub use park_fault::ParkFault;
pub use parked::Parked;
pub use seat_fault::SeatFault;
pub use start_fault::StartFault;
pub use watch::{Watch, Watcher};
