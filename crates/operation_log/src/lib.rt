//! The master's operation log as a trait, and a log in memory behind it (GFS paper, section 2.6.3).
#![tactic(auto)]

pub mod fault;
pub mod log;
pub mod memory;
pub mod reopened;
pub mod sizes;
