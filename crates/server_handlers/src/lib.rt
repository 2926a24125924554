//! A chunkserver's handlers, each as the protocol's definitions have it. They only plan: what is sent, what changes on the disk, and
//! what is seen.
#![tactic(auto)]

pub mod effects;
pub mod forward;
mod held_leases;
mod lease_table;
mod lifetime;
pub mod mutate;
pub mod mutations;
mod orders;
mod push;
mod pushed;
pub mod reads;
pub mod server;
mod ticks;
