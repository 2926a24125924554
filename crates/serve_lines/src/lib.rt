//! The lines that a served cell takes: how they are read, and what each asks for.
#![tactic(auto)]

pub mod input;
pub mod lines;
