//! A store whose disk stops at each of its calls.

ghost use Rattle.std.specs.Prelude.{◌≡◌, ◌⊎◌, false, IfOk, true};
ghost use Rattle.chunk_store.specs.Stores.{IsOpen};
ghost use Rattle.disk.specs.Failing.{FuseState};
ghost use Rattle.disk.specs.Writes.{LeftBy};
ghost use Rattle.replica_store.specs.declared.change.StoreChange.TheVariants.{SetOrder};
ghost use Rattle.replica_store.specs.Replicas.{ServerDisk, disk_changed};
ghost use Rattle.store_disk.specs.Formats.{is_head_open};

use crate::chunk_calls::{ALL, Listing, SIZE, found_on, fused, listed, open_new, run};
use crate::log_calls::WAYS;
use chunk_store::{OpenFault, Store};
use disk::{Disk, FuseDisk, MemDisk, StopPlan};
use gfs_types::ids::OrderNo;
use gfs_types::torn::Torn;
use std::alloc::{AllocError, Global};
use std::test::Fail;

/// All steps take fewer calls of the disk.
pub(crate) const CALLS: u64 = 160;

/// And so does an opening.
pub(crate) const OPENING_CALLS: u64 = 24;

/// One for each number of steps, with the mutation and without.
pub(crate) const STATES: usize = 10;

pub(crate) type States = [Option<Listing>; STATES];

// What is listed after so many steps; none where memory was refused.
fn state_after(alloc: Global, steps: usize) -> Option<Listing> {
    let Ok(disk) = fused(alloc, 1_000) else {
        return None;
    };
    let (disk, ran) = run(disk, alloc, steps);
    let found = found_on(disk, alloc);
    if ran.done == steps { found } else { None }
}

/// What is listed after each number of steps. Where memory is refused it is tried once more.
pub(crate) fn all_states(alloc: Global) -> States {
    let mut states = [None; STATES];
    for (steps, state) in states.iter_mut().enumerate() {
        *state = state_after(alloc, steps);
        if state.is_none() {
            *state = state_after(alloc, steps);
        }
    }
    states
}

/// Whether the disk says what it said after so many steps, or one more.
pub(crate) fn are_after(states: &States, done: usize, found: Option<Listing>) -> bool {
    if found.is_none() || done >= STATES - 1 {
        return found.is_some() && found == states[STATES - 1];
    }
    found == states[done] || found == states[done + 1]
}

// How many steps were done on a disk that stops, whether an opening that was to stop came to its end, and what the opening after it lists.
fn stopped_twice(
    disk: FuseDisk,
    alloc: Global,
    more: u64,
    torn: Torn,
) -> (usize, bool, Option<Listing>)
    requires { is_head_open disk.disk.bytes ≡ false }
{
    let (disk, ran) = run(disk, alloc, ALL);
    let mut second = FuseDisk::new(disk.stop(torn));
    second.arm(more);
    let (stopped, first) = listed(second, alloc);
    let found = found_on(stopped.stop(torn), alloc);
    (ran.done, first.is_ok(), found)
}

// Each step is stopped at each of its calls, and the opening after it at each of its own.
#[test]
fn each_step_is_done_or_not(rt: HostRuntime) -> Result<(), Fail> {
    let alloc = rt.alloc();
    let states = all_states(alloc);
    let mut all = 0;
    for calls in 0..CALLS {
        for torn in WAYS {
            let mut is_open = false;
            for more in 0..OPENING_CALLS {
                let (done, has_opened, found) = stopped_twice(
                    fused(alloc, calls)?,
                    alloc,
                    more,
                    torn,
                );
                assert!(rt; are_after(&states, done, found));
                is_open = has_opened;
                all = done;
            }
            assert!(rt; is_open);
        }
    }
    assert!(rt; all == ALL);
    Ok(())
}

// A new disk. Where memory is refused it is asked for once more.
fn fused_again(alloc: Global) -> Result<FuseDisk, AllocError>
    ensures { IfOk result (λ disk. is_head_open disk.disk.bytes ≡ false) }
{
    match fused(alloc, 1_000) {
        Ok(disk) => Ok(disk),
        Err(_) => fused(alloc, 1_000),
    }
}

// What is listed. Where memory is refused it is asked for once more.
fn listed_again(disk: FuseDisk, alloc: Global) -> Option<Listing> {
    let (disk, first) = listed(disk, alloc);
    if first.is_ok() {
        drop(disk);
        return first.ok();
    }
    found_on(disk, alloc)
}

// `tools/campaigns/refused` refuses each allocation in turn.
#[test]
fn a_refused_allocation_leaves_a_state(rt: HostRuntime) -> Result<(), Fail> {
    let alloc = rt.alloc();
    let states = all_states(alloc);
    let (disk, ran) = run(fused_again(alloc)?, alloc, ALL);
    let found = listed_again(disk, alloc);
    assert!(rt; are_after(&states, ran.done, found));
    Ok(())
}

// Keeps an order's number, whether the disk stops meanwhile or not, and opens the store on what the disk has then. It says what it said before, or has the number.
fn keep_order(
    store: Store<FuseDisk>,
    alloc: Global,
    order: OrderNo,
) -> Result<Store<FuseDisk>, (FuseDisk, OpenFault)>
    requires { store.is_open ≡ true }
    ensures { (d : ServerDisk) → IsOpen (λ (x : FuseState). x.disk.bytes) (λ (x : FuseState). LeftBy x.disk) store d
        → IfOk result (λ s. IsOpen (λ (x : FuseState). x.disk.bytes) (λ (x : FuseState). LeftBy x.disk) s d
        ⊎ IsOpen (λ (x : FuseState). x.disk.bytes) (λ (x : FuseState). LeftBy x.disk) s (disk_changed d (SetOrder order))) }
{
    let mut store = store;
    let layout = store.layout();
    let _is_kept = store.set_order(alloc, order).is_ok();
    let disk = StopPlan::new().restart(store.into_disk());
    Store::open(alloc, disk, layout)
}

// The number of the last order, where the disk stops after so many calls.
fn order_after(alloc: Global, calls: u64) -> Option<OrderNo> {
    let Ok(disk) = MemDisk::new(alloc, SIZE) else {
        return None;
    };
    let Ok(store) = open_new(FuseDisk::new(disk), alloc) else {
        return None;
    };
    let mut store = store;
    store.arm(calls);
    match keep_order(store, alloc, OrderNo { epoch: 2, count: 3 }) {
        Ok(store) => Some(store.order()),
        Err(_) => None,
    }
}

#[test]
fn an_order_is_kept_or_not(rt: HostRuntime) -> Result<(), Fail> {
    let alloc = rt.alloc();
    let before = Some(OrderNo { epoch: 0, count: 0 });
    let after = Some(OrderNo { epoch: 2, count: 3 });
    assert!(rt; order_after(alloc, 0) == before);
    assert!(rt; order_after(alloc, 100) == after);
    for calls in 0..20 {
        let found = order_after(alloc, calls);
        assert!(rt; found == before || found == after, "call {calls}");
    }
    Ok(())
}
