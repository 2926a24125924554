//! A program with cells in it: one client that reads its own record; four producers that append records to one file, each on a thread of its own,
//! with a reader that reads each record where it was answered to stand; and a reader that follows a file over rounds, while two producers append to
//! it, messages are lost, repeated and held up, and the nodes begin again.
#![tactic(auto)]

mod clients;
mod follower;
mod follower_trial;
mod four_producers;
mod one_client;
mod record;
mod stretch;
mod taken;
mod trial_fault;
mod trial_producer;

use crate::follower_trial::run_trials;
use crate::four_producers::append_side_by_side;
use crate::one_client::reads_its_record;
use anyhow::Result;

fn main(rt: HostRuntime) -> Result<()> {
    let alloc = rt.alloc();
    println!(rt;
        "one client reads its record: {}",
        reads_its_record(rt, alloc)?
    )?;
    append_side_by_side(rt, alloc)?;
    run_trials(rt, alloc)
}
