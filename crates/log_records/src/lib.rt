//! What the master's operation log and its checkpoints hold.
#![tactic(auto)]

pub mod record;
