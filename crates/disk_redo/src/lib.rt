//! Changes of a disk that are made as a whole: a gate, and an area from which they are made again.
#![tactic(auto)]

pub mod gate;
mod making;
mod opening;
mod parsing;
mod range;
mod reading;
mod staging;
pub mod step;

pub use gate::close;
pub use making::commit;
pub use opening::open;
pub use range::{RedoArea, RedoRange};
