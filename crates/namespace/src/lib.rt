//! The names of a cell, and what stands at each (GFS paper, section 4.1).
#![tactic(auto)]

pub mod name_kind;
pub mod node;
