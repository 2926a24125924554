//! The master's operation log on a disk: a checkpoint's items, and the records appended after it.
#![tactic(auto)]

mod area;
mod area_writing;
mod checkpointing;
mod collecting;
mod counted;
mod disk_reading;
mod entries;
mod entry_writing;
mod fault;
mod fields;
mod found;
mod gate;
mod layout;
mod log;
mod new_log;
mod opening;
mod order;
mod reading;
mod reading_items;
mod upgrading;
mod volume;
mod walk;

pub use counted::CountedRecords;
pub use disk_reading::read_range;
pub use fault::LogFault;
pub use log::Log;
pub use order::is_checkpoint;
pub use walk::Walk;
