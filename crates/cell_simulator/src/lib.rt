//! A cell of many servers under a script's clock and network.
#![tactic(auto)]

pub mod cell;
pub mod lines;
pub mod looks;
pub mod network;
pub mod printing;
pub mod rounds;
pub mod run;
pub mod simulator;
