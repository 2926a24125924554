//! Runs scripts of calls on a running cell, each client's calls on a thread of its own.
#![tactic(auto)]

mod play;
pub mod printing;
mod reopen;
pub mod run;
