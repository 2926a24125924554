//! The machine's names alone: runs by name calls, what clients see of them, and snapshots that wait. Traces of several clients or files that are
//! no runs.
#![tactic(auto)]

pub mod false_traces;
pub mod name_projections;
pub mod name_runs;
pub mod name_traces;
pub mod named_files;
pub mod snapshot_locks;
pub mod unseen_runs;
