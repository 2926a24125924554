//! The cell: its nodes, the network and what an observer saw; its answers are those of a run of the machine.
#![tactic(auto)]

pub mod kept_promises;
pub mod laws;
pub mod world;
