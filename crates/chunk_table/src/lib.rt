//! The master's table of files and chunks: each file's list of handles, and each chunk's versions, owners and lease.
#![tactic(auto)]

pub mod chunk;
mod chunks;
pub mod fault;
mod files;
pub mod table;
