//! Name calls at the master, and snapshots, which wait under their locks until leases have ended (GFS paper, sections 3.4 and 4.1).
#![tactic(auto)]

pub mod alone;
pub mod answers;
pub mod awaited;
pub mod begins;
pub mod calls;
pub mod concerned;
pub mod locks;
pub mod looks;
pub mod names;
pub mod ready;
pub mod refusals;
pub mod snapshots_ready;
mod waits;
