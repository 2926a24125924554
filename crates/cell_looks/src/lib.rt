//! What is told of a parked or closed cell: the file of a name, the replicas of a chunk, its regions, and what all clients called and were answered.
#![tactic(auto)]

pub mod ending;
pub mod history_fault;
pub mod history_printing;
mod history_sights;
pub mod journals;
pub mod look_fault;
pub mod looks;
mod parked_servers;
pub mod printing;

pub use history_fault::HistoryFault;
pub use history_printing::print_history;
pub use history_sights::regions_of_chunk;
pub use look_fault::LookFault;
pub use looks::Looks;
