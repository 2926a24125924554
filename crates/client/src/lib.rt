//! A client of the cell: its state, its calls up to the first message of a call's first attempt, how a call goes on, and its steps on messages and at ticks, each one
//! of the protocol's definitions (sections 2.4, 2.7.1, 2.7.2, 3.1 and 3.3).
#![tactic(auto)]

mod asked;
mod calls;
pub mod client;
mod client_attempts;
mod client_keeps;
mod client_plans;
mod located;
mod named;
mod placed;
mod read;
mod refused;
pub mod step;
pub mod takes;
mod ticks;
