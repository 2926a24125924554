//! How long no snapshot that waits can be ready, as records follow (section 3.4).

ghost use Rattle.std.specs.Prelude.{◌≡◌, ◌==◌, false, true, Some, length, IfSome};
ghost use Rattle.protocol.specs.MasterSnapshots.{row_has_ended};
ghost use Rattle.chunk_table.specs.ChunkTable.{chunk_of, handles_of};
ghost use Rattle.master_waiting.specs.Due.{leaves_leases};

use gfs_types::ids::{FileId, Handle, Moment};
use leases::master::ended;
use log_records::record::Record;
use master_state::state::State;
use std::alloc::Allocator;

/// The moment up to which all wait, where a record leaves it so. It is told whether the record may change a name at a source or below it.
pub fn still_waiting<A: Allocator + Clone>(
    state: &State<A>,
    until: Option<u64>,
    entry: &Record,
    is_moved: bool,
) -> Option<u64>
    ensures kept { IfSome result (λ moment. until ≡ Some moment) }
    ensures names { IfSome result (λ _. is_moved ≡ false) }
    ensures leases { IfSome result (λ moment. leaves_leases state.now moment entry.now ≡ true) }
{
    let moment = until?;
    if is_moved || !leaves_leases(state, moment, entry) {
        return None;
    }
    Some(moment)
}

// Whether no lease that has not ended at this moment ends by a record that moves no name.
fn leaves_leases<A: Allocator + Clone>(state: &State<A>, moment: u64, entry: &Record) -> bool
    ensures { result ≡ leaves_leases state.now moment entry.now }
{
    match entry {
        Record::Create { file, .. } => has_no_chunks(state, *file),
        Record::AddChunk { handle, .. } => has_ended_at(state, *handle, moment),
        Record::Grant { handle, .. } => {
            has_ended_at(state, *handle, moment) && state.copy_under(*handle).is_none()
        }
        Record::CopyStart { copy, .. } => has_ended_at(state, *copy, moment),
        _ => true,
    }
}

fn has_no_chunks<A: Allocator + Clone>(state: &State<A>, file: FileId) -> bool
    ensures { result ≡ (length (handles_of state.now.table file.0) == 0) }
{
    match state.table().file(file) {
        Some(handles) => handles.as_slice().is_empty(),
        None => true,
    }
}

/// Whether no lease of a chunk is left to end at this moment.
pub fn has_ended_at<A: Allocator + Clone>(state: &State<A>, handle: Handle, moment: u64) -> bool
    ensures { result ≡ row_has_ended moment (chunk_of state.now.table handle.0) }
{
    match state.table().chunk(handle) {
        Some(chunk) => ended(chunk, Moment(moment)),
        None => true,
    }
}
