//! What servers tell the master of their replicas and leases, grants, and what it does at a tick (GFS paper, sections 2.6.2 and 4.3 to 4.5).
#![tactic(auto)]

pub mod attempts;
pub mod clones;
pub mod copies;
pub mod drops;
pub mod expiry;
pub mod extends;
pub mod granting;
pub mod learning;
pub mod report;
pub mod tick;
pub mod told;
