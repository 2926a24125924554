//! Leases: when the master may issue a version, and how long a lease counts for its primary (GFS paper, section 3.1).
#![tactic(auto)]

pub mod held;
pub mod laws;
pub mod master;
