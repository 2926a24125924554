//! Appends two records to a log on a disk in memory, and stores a replica on another; stops each disk, and prints how much is found on it then.
#![tactic(auto)]

mod log_caller;
mod store_caller;

use crate::log_caller::records_after_a_stop;
use crate::store_caller::bytes_after_a_stop;
use anyhow::Result;

fn main(rt: HostRuntime) -> Result<()> {
    let alloc = rt.alloc();
    println!(rt; "{} records", records_after_a_stop(alloc)?)?;
    println!(rt; "{} bytes", bytes_after_a_stop(alloc)?)?;
    Ok(())
}
