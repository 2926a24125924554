//! A log whose disk fails in one call and goes on.

use crate::log_calls::SIZE;
use crate::log_stops::{CALLS, OPENING_CALLS, found_on, is_after, stopped};
use crate::plan::{STEPS, StopPlan, find, run};
use disk::{Disk, FaultDisk, MemDisk};
use gfs_types::torn::Torn;
use oplog::LogFault;
use std::alloc::{AllocError, Global};
use std::test::Fail;

// How many changes are made on a disk that fails at one call. None where that isn't answered Device, or another call is, or the changes aren't found again.
fn made_with_fault(
    alloc: Global,
    plan: &StopPlan,
    calls: u64,
) -> Result<Option<usize>, AllocError> {
    let disk = FaultDisk::new(MemDisk::new(alloc, SIZE)?, calls);
    let (disk, made) = run(disk, alloc, plan);
    let has_failed = disk.failures() == 1;
    let found = found_on(disk.into_disk(), alloc, plan);
    let is_device = made.fault == Some(LogFault::Device);
    Ok(if is_device == has_failed && is_after(made, found) {
        Some(made.count)
    } else {
        None
    })
}

#[test]
fn a_failed_call_answers_device(rt: HostRuntime) -> Result<(), Fail> {
    let alloc = rt.alloc();
    let plan = StopPlan::new(alloc)?;
    let mut last = None;
    for calls in 0..CALLS {
        last = made_with_fault(alloc, &plan, calls).unwrap_or(None);
        assert!(rt; last.is_some(), "call {calls}");
    }
    drop(plan);
    assert!(rt; last == Some(STEPS));
    Ok(())
}

// Whether the changes are found again on a disk whose opening fails at one call and is done again, and that failure, and no other call, is answered Device.
fn is_found_again(
    alloc: Global,
    plan: &StopPlan,
    calls: u64,
    more: u64,
) -> Result<bool, AllocError> {
    let (disk, made) = stopped(alloc, plan, calls)?;
    let disk = FaultDisk::new(disk.stop(Torn::Byte(1)), more);
    let (disk, first) = find(disk, alloc, plan);
    let has_failed = disk.failures() == 1;
    let found = found_on(disk.into_disk(), alloc, plan);
    let is_device = first == Err(LogFault::Device);
    Ok(is_device == has_failed && is_after(made, found))
}

#[test]
fn a_failed_opening_is_done_again(rt: HostRuntime) -> Result<(), Fail> {
    let alloc = rt.alloc();
    let plan = StopPlan::new(alloc)?;
    for calls in 0..CALLS {
        for more in 0..OPENING_CALLS {
            let is_found = is_found_again(alloc, &plan, calls, more).unwrap_or(false);
            assert!(rt; is_found, "call {calls}, {more}");
        }
    }
    drop(plan);
    Ok(())
}
