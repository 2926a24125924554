//! What the master collects: stale replicas that a server reports, and files that were deleted long ago (GFS paper, sections 4.4 and 4.5).
#![tactic(auto)]

pub mod drop_order;
pub mod expired;
pub mod reply;
