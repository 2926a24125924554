//! A cell of one master, several chunkservers and several clients, which know each other only by messages.
#![tactic(auto)]

mod answers;
mod batch;
pub mod cell;
mod clients;
mod clock;
mod counts;
mod extent;
pub mod fault;
mod making;
pub mod master;
mod masters;
pub mod network;
mod numbered;
mod orders;
mod placed;
pub mod rebase_fault;
mod rebasing;
pub mod record;
mod run;
mod servers;
pub mod shown;
mod sighting;
pub mod sights;
