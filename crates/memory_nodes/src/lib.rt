//! The nodes of a new cell over disks in memory, and the place of its master.
#![tactic(auto)]

pub mod making;
pub mod master_slot;
mod showing;
pub mod start_fault;
