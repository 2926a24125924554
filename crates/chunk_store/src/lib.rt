//! A chunkserver's store of replicas on a disk: each change is made as a whole or not at all, whenever the disk stops.
#![tactic(auto)]

mod applying;
mod changing;
mod copying;
mod creating;
mod disk_opening;
mod fault;
mod finding;
mod found;
mod heads;
pub mod laws;
mod looking;
mod matching;
mod opening;
mod reading;
mod rotting;
mod slots_reading;
mod store;
mod volume;

pub use fault::OpenFault;
pub use store::Store;
pub use store_changes::StoreFault;
