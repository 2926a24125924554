//! The master's chunks: versions, copies, and what clients ask of them.
#![tactic(auto)]

pub mod asker;
pub mod asking;
mod chunks;
pub mod copying;
pub mod counting;
pub mod held;
pub mod issuing;
mod mutating;
pub mod placing;
pub mod row;
pub mod targets;
pub mod telling;
pub mod wanting;
