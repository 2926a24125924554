//! What reads the master's state as a whole, the replay of any record and of a log, and a record that is logged before its change is made
//! (GFS paper, sections 2.6.3, 3.4 and 4.4).
#![tactic(auto)]

pub mod change;
pub mod checkpoint;
pub mod expired;
pub mod fault;
pub mod lists;
pub mod refusals;
pub mod replay;
pub mod restart;
pub mod room;
pub mod snapshots;
