//! Reads of a chunkserver's disk, whose blocks are checked, and changes of it, each made as a whole or not at all.
#![tactic(auto)]

mod blocks;
mod edges;
mod fault;
mod making;
mod mutations;
mod orders;
mod parts;
mod putting;
mod raising;
mod ranges;
mod removing;
mod replicas;
mod rotting;
mod writing;

pub use blocks::{read_blocks, read_range};
pub use edges::{Edges, read_edges};
pub use fault::StoreFault;
pub use making::{change, one_range};
pub use mutations::{bytes_of, place_of};
pub use orders::set_order;
pub use parts::read_part;
pub use putting::put_in_slot;
pub use raising::raise;
pub use removing::remove;
pub use replicas::read_replica;
pub use rotting::rot;
pub use writing::write;
