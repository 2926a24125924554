//! A chunkserver: its steps on messages and ticks, and its restarts, each one of the protocol's definitions.
#![tactic(auto)]

mod clients;
pub mod disk_server;
mod ended;
mod mutations;
mod numberings;
mod ordered;
mod orders;
mod placed;
mod planned;
mod rotten;
pub mod server;
pub mod server_slot;
pub mod server_writes;
mod servers;
