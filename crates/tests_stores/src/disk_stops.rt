//! A store whose disk stops at each of its calls, and at each call of the opening after that.

ghost use Rattle.std.specs.Prelude.{◌≡◌, ◌%◌, [], IfOk};
ghost use Rattle.tests_stores.specs.StoppedStores.{HasStore};

use crate::changes::{CHANGES, Shown, change_of, commit_first, seen};
use crate::log_calls::WAYS;
use crate::same::new_store;
use crate::stopped_store::{TestStore, open_after, taken};
use disk::{FuseDisk, StopPlan};
use gfs_types::torn::Torn;
use replica_store::armed_store::ArmedStore;
use replica_store::fault::ReplicaStoreFault;
use replica_store::store::ReplicaStore;
use std::alloc::Global;
use std::test::Fail;
use store_disk::Layout;

// One change takes fewer calls of the disk.
const CALLS: u64 = 30;

// And so does an opening.
const OPENING_CALLS: u64 = 24;

// After how many calls the disk stops, after how many in the opening after that, and what it makes of what wasn't synced.
#[derive(Clone, Copy)]
struct Stop {
    calls: u64,
    more: u64,
    torn: Torn,
}

// What a store whose disk doesn't stop shows after so many changes.
fn after(alloc: Global, count: u64) -> Result<Shown, ReplicaStoreFault> {
    let mut store = new_store(alloc)?;
    commit_first(alloc, &mut store, count)?;
    seen(alloc, &mut store)
}

// The disk after an opening of its store, the store's sizes, and whether it was opened.
fn open_and_let_go(
    alloc: Global,
    disk: FuseDisk<Global>,
    layout: Layout,
    stops: &mut StopPlan,
) -> (FuseDisk<Global>, Layout, bool)
    requires whole { layout.chunk % layout.block ≡ 0 }
    requires store { HasStore layout disk }
    ensures whole { result.1.chunk % result.1.block ≡ 0 }
    ensures store { HasStore result.1 result.0 }
{
    match open_after(alloc, disk, layout, stops) {
        Ok(store) => {
            let (disk, layout) = taken(store);
            (disk, layout, true)
        }
        Err((disk, _fault)) => (disk, layout, false),
    }
}

// The store is opened twice, and its disk stops in the first opening. Whether that succeeded.
fn open_twice(
    alloc: Global,
    store: TestStore,
    stop: Stop,
) -> Result<(TestStore, bool), ReplicaStoreFault>
    ensures { IfOk result (λ r. r.0.under_way ≡ []) }
{
    let mut stops = StopPlan::new();
    stops.tear(stop.torn);
    stops.stop_after_restart(stop.more, stop.torn);
    let (disk, layout) = taken(store);
    let (disk, layout, is_open) = open_and_let_go(alloc, disk, layout, &mut stops);
    match open_after(alloc, disk, layout, &mut stops) {
        Ok(store) => Ok((store, is_open)),
        Err((disk, fault)) => {
            drop(disk);
            Err(fault)
        }
    }
}

// A change, after those before it, while the disk stops: whether it succeeded, whether the first opening after it did, and what is seen after the second.
fn stop_within(
    alloc: Global,
    number: u64,
    stop: Stop,
) -> Result<(bool, bool, Shown), ReplicaStoreFault> {
    let mut store = new_store(alloc)?;
    commit_first(alloc, &mut store, number)?;
    let change = change_of(alloc, number)?;
    store.arm(stop.calls);
    let is_ok = store.commit(change).is_ok();
    let (again, is_open) = open_twice(alloc, store, stop)?;
    let mut again = again;
    let found = seen(alloc, &mut again)?;
    Ok((is_ok, is_open, found))
}

// What is seen before a change and after it; and whether one that failed was found made, and one not made.
#[derive(Clone, Copy)]
struct Tally {
    before: Shown,
    done: Shown,
    made: bool,
    lacking: bool,
}

// Whether the change is found made or not, and made where it was answered so.
fn is_decided(tally: &mut Tally, is_ok: bool, found: Shown) -> bool {
    let is_done = found == tally.done;
    let is_before = found == tally.before;
    tally.made = tally.made || !is_ok && is_done;
    tally.lacking = tally.lacking || is_before;
    is_done || !is_ok && is_before
}

// The same for each call of the change, each stop within the opening, and each tear; and whether neither the change nor the opening has more calls than were
// tried, and an opening that may make none fails.
fn are_decided(alloc: Global, tally: &mut Tally, number: u64) -> Result<bool, ReplicaStoreFault> {
    for calls in 0..CALLS {
        for more in 0..OPENING_CALLS {
            for torn in WAYS {
                let stop = Stop { calls, more, torn };
                let (is_ok, _is_open, found) = stop_within(alloc, number, stop)?;
                if !is_decided(tally, is_ok, found) {
                    return Ok(false);
                }
            }
        }
    }
    let mut last = Stop {
        calls: CALLS,
        more: OPENING_CALLS,
        torn: Torn::New,
    };
    let (is_ok, is_open, _found) = stop_within(alloc, number, last)?;
    last.more = 0;
    let (_is_ok, is_open_without, _found) = stop_within(alloc, number, last)?;
    Ok(is_ok && is_open && !is_open_without)
}

#[test]
fn each_change_is_made_or_not(rt: HostRuntime) -> Result<(), Fail> {
    let alloc = rt.alloc();
    for number in 0..CHANGES {
        let mut tally = Tally {
            before: after(alloc, number)?,
            done: after(alloc, number.saturating_add(1))?,
            made: false,
            lacking: false,
        };
        assert!(rt; are_decided(alloc, &mut tally, number)?);
        assert!(rt; tally.made && tally.lacking);
    }
    Ok(())
}
