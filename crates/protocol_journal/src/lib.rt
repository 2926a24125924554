//! The history of a cell whose nodes take their steps one by one, each on its own: a journal. A lawful one is a run of the world that `protocol` defines.
//! Laws of cells and journals that drop their messages and count them anew: each goes as one does that keeps all.
#![tactic(auto)]

pub mod based_journals;
pub mod cut_worlds;
pub mod laws;
