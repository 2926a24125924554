//! Whether an Ask can be taken near a counter's limit.

ghost use Rattle.std.specs.Prelude.{◌≡◌, ◌+◌, ◌*◌, nat_le, option_map};
ghost use Rattle.std.specs.Option.{option_copied};
ghost use Rattle.gfs_types.specs.Counters.{counter_limit};
ghost use Rattle.chunk_table.specs.ChunkTable.{file_of, handles_of};
ghost use Rattle.protocol.specs.MasterLimits.{has_handle, has_version, counts_for, counts_for_copy, row_under, counts_at, append_index, counts_wanted, counts_in};

use crate::chunks::{chunk_count, handle_at};
use chunk_table::chunk::Chunk;
use gfs_types::ids::{FileId, Handle, MAX_COUNTER};
use master_plan::plan::Plan;
use messages::message::Wanted;
use std::alloc::Allocator;

/// Whether what an Ask may raise is below its limit: a chunk's version number, and the handle of a new chunk or of a copy.
pub fn counts_in<A: Allocator + Clone>(plan: &Plan<A>, file: FileId, wanted: Wanted) -> bool
    ensures { result ≡ counts_in plan.now.config plan.now.logged file.0 wanted (file_of plan.now.logged.table file.0) }
{
    if plan.state().table().file(file).is_none() {
        return true;
    }
    counts_wanted(plan, file, wanted)
}

fn counts_wanted<A: Allocator + Clone>(plan: &Plan<A>, file: FileId, wanted: Wanted) -> bool
    ensures { result ≡ counts_wanted plan.now.config plan.now.logged file.0 (handles_of plan.now.logged.table file.0) wanted }
{
    match wanted {
        Wanted::Write(index) => counts_at(plan, file, index),
        Wanted::Append(after) => {
            let index = append_index(plan, file, after);
            counts_at(plan, file, index)
        }
        Wanted::Read(_) | Wanted::Last => true,
    }
}

// The index that an append is for: the last chunk's, where that isn't below the one asked for.
fn append_index<A: Allocator + Clone>(plan: &Plan<A>, file: FileId, after: u64) -> u64
    ensures { result ≡ append_index (handles_of plan.now.logged.table file.0) after }
{
    let count = chunk_count(plan, file);
    if after < count { count - 1 } else { count }
}

fn counts_at<A: Allocator + Clone>(plan: &Plan<A>, file: FileId, index: u64) -> bool
    ensures { result ≡ counts_at plan.now.config plan.now.logged file.0 (handles_of plan.now.logged.table file.0) index }
{
    let handle = handle_at(plan, file, index);
    if !counts_for(plan, handle) {
        return false;
    }
    let copy = plan.state().copy_for(file, index);
    counts_for_copy(row_under(plan, copy))
}

// A chunk that there isn't yet takes a handle, a shared one a number and a handle for its copy, and any other a number.
fn counts_for<A: Allocator + Clone>(plan: &Plan<A>, handle: Option<Handle>) -> bool
    ensures { result ≡ counts_for plan.now.config plan.now.logged (row_under plan.now.logged (option_map (λ h. h.0) handle)) }
{
    match row_under(plan, handle) {
        None => has_handle(plan),
        Some(row) => has_version(row) && (row.references() <= 1 || has_handle(plan)),
    }
}

fn counts_for_copy(row: Option<&Chunk>) -> bool
    ensures { result ≡ counts_for_copy (option_copied row.entry) }
{
    match row {
        None => true,
        Some(row) => has_version(row),
    }
}

fn row_under<A: Allocator + Clone>(plan: &Plan<A>, handle: Option<Handle>) -> Option<&Chunk>
    ensures { option_copied result ≡ row_under plan.now.logged (option_map (λ h. h.0) handle) }
{
    match handle {
        None => None,
        Some(handle) => plan.state().table().chunk(handle),
    }
}

fn has_version(row: &Chunk) -> bool
    ensures { result ≡ has_version row.now }
{
    row.issued().0 < MAX_COUNTER
}

// The next chunk takes a handle and its places.
fn has_handle<A: Allocator + Clone>(plan: &Plan<A>) -> bool
    ensures { result ≡ has_handle plan.now.config plan.now.logged }
{
    let next = plan.state().table().next_handle();
    ends_within(next, plan.config().chunk)
}

fn ends_within(next: Handle, chunk: u32) -> bool
    ensures { result ≡ nat_le (next.0 * chunk + chunk) counter_limit }
{
    let Some(begin) = next.0.checked_mul(u64::from(chunk)) else {
        return false;
    };
    match begin.checked_add(u64::from(chunk)) {
        Some(end) => end <= MAX_COUNTER,
        None => false,
    }
}
