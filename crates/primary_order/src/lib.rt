//! The serial order that a primary picks under one lease (GFS paper, sections 3.1 and 3.3): each attempt of a client is numbered at
//! most once, and is settled exactly when all members have acknowledged it while the lease counts.
#![tactic(auto)]

pub mod answer;
pub mod kept;
pub mod laws;
pub mod primary;
pub mod waiting;
