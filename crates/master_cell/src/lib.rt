//! The master whole, over any log of the trait, or over the disk of its log: each of its steps and restarts is one of the protocol's
//! definitions (GFS paper, section 2.6).
#![tactic(auto)]

pub mod changed_files;
pub mod commit;
pub mod copy;
mod counting;
mod drafted;
mod ended;
pub mod fault;
pub mod logged_master;
pub mod master;
pub mod opening_fault;
mod planned;
pub mod shown;
mod started;
