//! A disk as its users see it, and disks in memory that stop, tear and fail.
#![tactic(auto)]

mod device;
mod fault;
mod fuse;
mod memory;
mod page;
mod pages;
mod past_write;
mod stop_plan;

pub use device::{Disk, DiskFault};
pub use fault::FaultDisk;
pub use fuse::FuseDisk;
pub use memory::MemDisk;
pub use stop_plan::StopPlan;
