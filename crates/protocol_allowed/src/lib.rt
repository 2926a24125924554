//! What is computed of the relaxed-file machine is what it allows.
#![tactic(auto)]

pub mod laws;
