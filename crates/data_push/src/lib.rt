//! Data on their way to the replicas of a chunk: the buffer in which a server keeps them until a mutation uses them, and the next server to pass them on to.
#![tactic(auto)]

mod buffer;
mod hop;
pub mod laws;

pub use buffer::Buffer;
pub use hop::next_hop;
