//! The master and the servers of a running cell, and the locks under which they take steps.
#![tactic(auto)]

pub mod keep;
pub mod node_locks;
pub mod node_slots;
pub mod running_master;
