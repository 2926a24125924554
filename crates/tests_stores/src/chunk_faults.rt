//! A store whose disk fails in one call and goes on.

ghost use Rattle.std.specs.Prelude.{◌≡◌, false, IfOk};
ghost use Rattle.store_disk.specs.Formats.{is_head_open};

use crate::chunk_calls::{ALL, Listing, SIZE, found_on, fused, listed, open_new, run};
use crate::chunk_stops::{CALLS, OPENING_CALLS, all_states, are_after};
use chunk_store::OpenFault;
use disk::{Disk, FaultDisk, MemDisk};
use gfs_types::ids::{Handle, Version};
use gfs_types::torn::Torn;
use std::alloc::{AllocError, Global};
use std::test::Fail;

// A new disk that fails the call after so many.
fn faulty(alloc: Global, calls: u64) -> Result<FaultDisk, AllocError>
    ensures { IfOk result (λ disk. is_head_open disk.disk.bytes ≡ false) }
{
    Ok(FaultDisk::new(MemDisk::new(alloc, SIZE)?, calls))
}

#[test]
fn a_failed_call_answers_device(rt: HostRuntime) -> Result<(), Fail> {
    let alloc = rt.alloc();
    let states = all_states(alloc);
    let mut all = 0;
    for calls in 0..CALLS {
        let (disk, ran) = run(faulty(alloc, calls)?, alloc, ALL);
        assert!(rt; ran.is_device == (disk.failures() == 1), "call {calls}");
        let found = found_on(disk.into_disk(), alloc);
        assert!(rt; are_after(&states, ran.done, found), "call {calls}");
        all = ran.done;
    }
    assert!(rt; all == ALL);
    Ok(())
}

// What is listed of a disk whose opening fails at one call and is done again; None where a failure isn't answered Device, or Device without one.
fn listed_after_fault(disk: MemDisk, alloc: Global, more: u64) -> Option<Listing> {
    let (disk, first) = listed(FaultDisk::new(disk, more), alloc);
    let has_failed = disk.failures() == 1;
    let found = found_on(disk.into_disk(), alloc);
    if has_failed == (first == Err(OpenFault::Device)) {
        found
    } else {
        None
    }
}

// The steps stop, and so the opening has a change to end.
#[test]
fn a_failed_opening_is_done_again(rt: HostRuntime) -> Result<(), Fail> {
    let alloc = rt.alloc();
    let states = all_states(alloc);
    for calls in 0..CALLS {
        for more in 0..OPENING_CALLS {
            let (disk, ran) = run(fused(alloc, calls)?, alloc, ALL);
            let found = listed_after_fault(disk.stop(Torn::New), alloc, more);
            assert!(rt; are_after(&states, ran.done, found));
        }
    }
    Ok(())
}

// Whether a store on a new disk that stops after so many calls is open behind a change just where that succeeded.
fn is_open_if_changed(alloc: Global, calls: u64) -> Result<bool, AllocError> {
    Ok(match open_new(fused(alloc, calls)?, alloc) {
        Ok(store) => {
            let mut store = store;
            let created = store.create(alloc, Handle(5), Version(1));
            let is_open = store.is_open();
            drop(store.into_disk());
            is_open == created.is_ok()
        }
        Err((disk, fault)) => {
            drop(disk);
            fault == OpenFault::Device
        }
    })
}

#[test]
fn a_failed_change_closes_the_store(rt: HostRuntime) -> Result<(), Fail> {
    let alloc = rt.alloc();
    for calls in 0..CALLS {
        assert!(rt; is_open_if_changed(alloc, calls)?, "call {calls}");
    }
    Ok(())
}
