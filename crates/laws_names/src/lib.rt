//! Laws of names: requests, answers and locks, and that the cell's names are those of a run of the machine by names alone.
#![tactic(auto)]

pub mod beside_clients;
pub mod chunk_steps;
pub mod explained_names;
pub mod followed_clients;
pub mod followed_steps;
pub mod kept_answers;
pub mod name_answers;
pub mod name_clients;
pub mod name_requests;
pub mod name_steps;
pub mod name_trails;
pub mod name_words;
pub mod named_replies;
pub mod names;
pub mod names_due;
pub mod open_requests;
pub mod unasked_steps;
pub mod waiting_snapshots;
