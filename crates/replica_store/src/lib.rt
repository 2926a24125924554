//! The replicas of a chunkserver: what is known of each, what changes them, and what is asked of their store, whatever keeps them.
#![tactic(auto)]

pub mod armed_store;
pub mod change;
pub mod fault;
pub mod reopened_store;
pub mod row;
pub mod store;
