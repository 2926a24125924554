//! Plain programs for the definitions of the relaxed-file machine: slow and obvious, each with the definition as its contract.
//! Tests of the cell compare its answers with these.
#![tactic(auto)]

mod copies;
pub mod entry;
pub mod image;
mod listing;
pub mod name;
pub mod name_kind;
pub mod name_list;
mod name_refusals;
pub mod name_table;
pub mod outcome;
pub mod regions;
pub mod selection;
