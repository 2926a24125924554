//! The nodes of a running cell: their mailboxes, their writers of the journal, and the seats at which clients call.
#![tactic(auto)]

pub mod calls;
pub mod client_call;
pub mod controls;
pub mod gate;
pub mod journal;
mod journal_look;
pub mod mailbox_wait;
pub mod mailboxes;
pub mod node_journal;
pub mod node_lock;
pub mod node_registry;
pub mod parked_node;
pub mod seat;
pub mod shared_state;
pub mod slot;
pub mod stepper;
