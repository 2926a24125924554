//! What the master keeps of snapshots that wait, under their locks, and of versions that are under way; and why a step of it comes to no end.
#![tactic(auto)]

pub mod call_locks;
pub mod fault;
pub mod locked_list;
pub mod numbers;
pub mod still_waiting;
pub mod waiting;
pub mod waiting_concerned;
pub mod waiting_list;
pub mod waiting_snapshots;
