//! How long the snapshots that wait do so at least, by the chunks that they were found to wait for.

ghost use Rattle.std.specs.Prelude.{◌≡◌, true, false, not, IfSome};
ghost use Rattle.std.specs.List.{list_all};
ghost use Rattle.chunk_table.specs.ChunkTable.{chunk_of, handles_of};
ghost use Rattle.protocol.specs.MasterSnapshots.{is_ready, row_has_ended};
ghost use Rattle.master_waiting.specs.Due.{WaitAt, is_ready_at};
ghost use Rattle.master_plan.specs.Plans.{known};

use crate::alone::handles_of;
use crate::awaited::{file_at, is_in_source};
use gfs_types::ids::{FileId, Handle};
use master_plan::plan::Plan;
use master_waiting::waiting::{Awaited, Pending};
use std::alloc::Allocator;

/// Whether it is known that none is ready: it was put down, or the chunks say it for which they were found to wait. Takes no memory.
pub fn all_wait<A: Allocator + Clone>(plan: &mut Plan<A>) -> bool
    ensures answer { result ≡ true → list_all (λ s. not (is_ready (known plan.new) s)) plan.new.snapshots ≡ true }
    ensures same { plan.new ≡ plan.old }
{
    if plan.all_wait() {
        return true;
    }
    notes_wait(plan);
    plan.all_wait()
}

/// Where a lease is known for which each waits, it is put down until when all of them last. Takes no memory.
pub fn notes_wait<A: Allocator + Clone>(plan: &mut Plan<A>)
    ensures { plan.new ≡ plan.old }
{
    if let Some(moment) = all_wait_until(plan, plan.snapshots()) {
        plan.note_all_wait(moment);
    }
}

// A moment at which none of these is ready.
#[tactic(auto, using(crate::proofs::LeasedChunks::whole_list))]
fn all_wait_until<A: Allocator + Clone>(plan: &Plan<A>, snapshots: &[Pending]) -> Option<u64>
    ensures { IfSome result (WaitAt plan.now.logged snapshots.now) }
{
    // one that has just come was not looked at yet
    if snapshots
        .iter()
        .any(|snapshot| snapshot.awaited().is_none())
    {
        return None;
    }
    let mut until = u64::MAX;
    for snapshot in snapshots {
        match waits_until(plan, snapshot) {
            Some(moment) => until = until.min(moment),
            None => return None,
        }
    }
    Some(until)
}

fn waits_until<A: Allocator + Clone>(plan: &Plan<A>, snapshot: &Pending) -> Option<u64>
    ensures { IfSome result (λ moment. is_ready_at plan.now.logged moment snapshot.now ≡ false) }
{
    match snapshot.awaited() {
        Some(awaited) => waits_at(plan, snapshot, awaited),
        None => None,
    }
}

// A moment at which a snapshot isn't ready: the last one of the lease of the chunk for which it was found to wait.
fn waits_at<A: Allocator + Clone>(
    plan: &Plan<A>,
    snapshot: &Pending,
    awaited: &Awaited,
) -> Option<u64>
    ensures { IfSome result (λ moment. is_ready_at plan.now.logged moment snapshot.now ≡ false) }
{
    if !is_in_source(snapshot, &awaited.path) {
        return None;
    }
    let Some(file) = file_at(plan, &awaited.path) else {
        return None;
    };
    leased_until(plan, file, awaited.index)
}

// The last moment of the lease of a file's chunk at this index.
fn leased_until<A: Allocator + Clone>(plan: &Plan<A>, file: FileId, index: usize) -> Option<u64>
    ensures { IfSome result (λ moment. list_all (λ handle. row_has_ended moment (chunk_of plan.now.logged.table handle)) (handles_of plan.now.logged.table file.0) ≡ false) }
{
    let Some(handle) = handles_of(plan, file).get(index) else {
        return None;
    };
    lease_until(plan, Handle(*handle))
}

// The last moment of a chunk's lease.
#[tactic(auto, using(crate::proofs::LeasedChunks::beyond))]
fn lease_until<A: Allocator + Clone>(plan: &Plan<A>, handle: Handle) -> Option<u64>
    ensures { IfSome result (λ moment. row_has_ended moment (chunk_of plan.now.logged.table handle.0) ≡ false) }
{
    let Some(chunk) = plan.state().table().chunk(handle) else {
        return None;
    };
    let end = chunk.lease_end();
    if end.0 == 0 {
        return None;
    }
    Some(end.0 - 1)
}
