//! What users of the files rely on, of each run of the machine and so of each world that one explains.
#![tactic(auto)]

pub mod examples;
pub mod readers;
pub mod reads;
pub mod records;
pub mod worlds;
pub mod writes;
