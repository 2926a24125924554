//! What the nodes of a cell send each other, and the events that a cell takes.
#![tactic(auto)]

mod clones;
pub mod event;
pub mod message;
pub mod message_lists;
