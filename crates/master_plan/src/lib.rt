//! The master while it takes a step: what it knows, and what the step has come to so far (GFS paper, section 2.6).
#![tactic(auto)]

pub mod begin;
pub mod change;
pub mod concerned;
pub mod copies;
pub mod granted;
pub mod holders;
pub mod logging;
pub mod orders;
pub mod plan;
pub mod reports;
pub mod revokes;
pub mod room;
pub mod sizes;
pub mod snapshots;
pub mod whole;
