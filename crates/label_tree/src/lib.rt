//! A tree of labels: names in the order of their bytes, each with a value. What names begin with alike is kept once, and all its memory lies in one allocator.
#![tactic(auto)]

pub mod cut;
pub mod front;
pub mod insert;
pub mod label;
pub mod node;
pub mod place;
pub mod remove;
pub mod siblings;
pub mod tidy;
pub mod tree;
pub mod turn;
