//! A chunkserver's replicas on a disk, behind the trait that servers use.
#![tactic(auto)]

pub mod committing;
pub mod creating;
pub mod disk_store;
pub mod faults;
pub mod known;
pub mod looking;
mod making;
pub mod reopening;
pub mod standing;
mod telling;
