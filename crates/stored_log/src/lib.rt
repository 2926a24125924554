//! The master's operation log on a disk, behind the trait that the master uses.
#![tactic(auto)]

pub mod disk_log;
mod entries;
mod standing;
