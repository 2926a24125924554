//! The nodes of a running cell: what a step does to each, and the seats of clients, which go over to the cell that goes on behind a parked one.
#![tactic(auto)]

pub mod client_places;
pub mod client_stepper;
pub mod master_stepper;
pub mod parked_seat;
pub mod running_client;
pub mod running_server;
pub mod seating;
mod step_message;
