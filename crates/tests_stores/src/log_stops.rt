//! A log whose disk stops at each of its calls.

use crate::log_calls::{SIZE, WAYS};
use crate::plan::{Made, STEPS, StopPlan, find, run};
use disk::{Disk, FuseDisk, MemDisk};
use std::alloc::{AllocError, Global};
use std::test::Fail;

/// Opening a new disk and all changes take fewer calls of the disk.
pub(crate) const CALLS: u64 = 40;

/// An opening takes 5 calls of the disk, and one that formats 14 at most.
pub(crate) const OPENING_CALLS: u64 = 15;

/// All changes on a new disk that stops after so many calls.
pub(crate) fn stopped(
    alloc: Global,
    plan: &StopPlan,
    calls: u64,
) -> Result<(FuseDisk, Made), AllocError> {
    let mut disk = FuseDisk::new(MemDisk::new(alloc, SIZE)?);
    disk.arm(calls);
    Ok(run(disk, alloc, plan))
}

/// Whether a log has what it had after these changes; or, where one failed, with that one.
pub(crate) fn is_after(made: Made, found: Option<usize>) -> bool {
    match found {
        Some(count) => count == made.count
            || (made.fault.is_some() && count == made.count.saturating_add(1)),
        None => false,
    }
}

/// After how many changes the log on a disk has what it has.
pub(crate) fn found_on(disk: MemDisk, alloc: Global, plan: &StopPlan) -> Option<usize> {
    let (disk, found) = find(disk, alloc, plan);
    drop(disk);
    found.ok()
}

// Whether the changes are found once they and then an opening stopped, at each of its calls, the last of which comes to its end, and with each tear. How many
// were made; None where they aren't found.
fn stopped_at(alloc: Global, plan: &StopPlan, calls: u64) -> Result<Option<usize>, AllocError> {
    let mut last = None;
    for torn in WAYS {
        let mut is_open = false;
        for more in 0..OPENING_CALLS {
            let (disk, made) = stopped(alloc, plan, calls)?;
            let mut second = FuseDisk::new(disk.stop(torn));
            second.arm(more);
            let (second, first) = find(second, alloc, plan);
            let found = found_on(second.stop(torn), alloc, plan);
            if !is_after(made, found) {
                return Ok(None);
            }
            is_open = first.is_ok();
            last = Some(made.count);
        }
        if !is_open {
            return Ok(None);
        }
    }
    Ok(last)
}

#[test]
fn each_change_is_made_or_not(rt: HostRuntime) -> Result<(), Fail> {
    let alloc = rt.alloc();
    let plan = StopPlan::new(alloc)?;
    let mut last = None;
    for calls in 0..CALLS {
        last = stopped_at(alloc, &plan, calls).unwrap_or(None);
        assert!(rt; last.is_some(), "call {calls}");
    }
    drop(plan);
    assert!(rt; last == Some(STEPS));
    Ok(())
}
