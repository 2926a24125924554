//! Snapshots: what one is about, how it shares chunks once their leases have ended, and how a shared chunk gets a copy of its own
//! (GFS paper, section 3.4).
#![tactic(auto)]

pub mod commit;
pub mod copied;
pub mod copy_plan;
pub mod fault;
pub mod plan;
mod rising;
