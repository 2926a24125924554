//! Read and write locks on full names (section 4.1).
#![tactic(auto)]

mod lock_counts;
pub mod lock_set;
pub mod table;
