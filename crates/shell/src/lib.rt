//! Runs scripts on a simulated cell of many servers.
#![tactic(auto)]

pub mod laws;
pub mod making;
pub mod run;
pub mod world;
