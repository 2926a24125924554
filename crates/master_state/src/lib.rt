//! The master's state that its operation log keeps, and the replay of each record (GFS paper, section 2.6.3).
#![tactic(auto)]

pub mod chunks;
pub mod copies;
pub mod fault;
pub mod files;
mod hidden;
pub mod items;
pub mod kept;
pub mod lease_ends;
pub mod looks;
pub mod names;
pub mod refusals;
pub mod room;
pub mod snapshots;
pub mod state;
