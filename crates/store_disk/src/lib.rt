//! The places of a store of replicas on its disk: slots, their headers, blocks and digests; and which replicas the bytes mean.
#![tactic(auto)]

pub mod block_laws;
mod digests;
mod formatting;
mod free_slots;
mod hashed_block;
mod hashed_front;
mod header;
pub mod header_laws;
mod held;
mod index;
mod known_block;
mod places;
mod reading;
pub mod replica_laws;
mod writing;

pub use digests::{blocks_match, digests_of_blocks};
pub use formatting::format;
pub use free_slots::FreeSlots;
pub use hashed_block::HashedBlock;
pub use header::SlotHeader;
pub use held::HeldReplica;
pub use index::SlotIndex;
pub use places::Layout;
pub use reading::{read_header, read_order};
pub use writing::{write_head, write_header, write_order};
