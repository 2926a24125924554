//! What a client keeps: the locations of chunks, the files that it has open, and how far its call has come (sections 2.4 and 2.7.1).
#![tactic(auto)]

pub mod call;
pub mod gathered;
mod held;
pub mod kept;
