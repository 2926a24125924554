//! Serves a running cell through a pipe: lines are taken as they come, each client's calls are made in order on a thread of its own, and each
//! answer is printed when it comes.
#![tactic(auto)]

pub mod printing;
pub mod reading;
pub mod run;
pub mod served_client;
pub mod served_messages;
