//! Which chunk gets a new replica (GFS paper, section 4.3).
#![tactic(auto)]

pub mod clone_order;
pub mod doubts;
pub mod holders;
pub mod next;
mod servers;
pub mod whole;
