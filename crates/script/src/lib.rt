//! The script language: what a line asks for, the lines that are printed, why a script stops, and what a run is given beside its
//! script.
#![tactic(auto)]

pub mod answers;
pub mod call_lines;
pub mod cell_lines;
pub mod cell_nodes;
pub mod chunk_lines;
pub mod fault;
pub mod kinds;
pub mod lines;
pub mod live_lines;
pub mod nodes;
pub mod numbers;
pub mod options;
pub mod plan;
pub mod reading;
pub mod script_fault;
pub mod stored;
pub mod words;
