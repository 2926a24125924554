//! Snapshots of one file.

ghost use Rattle.std.specs.Prelude.{◌≡◌, IfSome};
ghost use Rattle.chunk_table.specs.ChunkTable.{handles_of};
ghost use Rattle.protocol.specs.Tables.{rising};
ghost use Rattle.protocol.specs.MasterSnapshots.{snapshot_handles};
ghost use Rattle.master_plan.specs.Plans.{known};

use gfs_types::ids::FileId;
use master_plan::plan::Plan;
use master_waiting::waiting::Pending;
use namespace::name_kind::NameKind;
use std::alloc::Allocator;

/// The file at a snapshot's source, where one stands there and nothing lies below its name: its chunks are those that the snapshot
/// concerns. Takes no memory, and doesn't go over the names.
#[tactic(auto, using(crate::proofs::Sources::concerned_alone))]
pub fn file_alone<A: Allocator + Clone>(plan: &Plan<A>, snapshot: &Pending) -> Option<FileId>
    ensures { IfSome result (λ file. snapshot_handles (known plan.now) snapshot.now ≡ rising (handles_of plan.now.logged.table file.0)) }
{
    let names = plan.state().names();
    let Some(node) = names.get(snapshot.from()) else {
        return None;
    };
    let NameKind::File(file) = node.kind() else {
        return None;
    };
    if names.has_below(snapshot.from()) {
        return None;
    }
    Some(file)
}

/// The chunks of a file; none where there is no such file.
pub fn handles_of<'a, A: Allocator + Clone>(plan: &'a Plan<A>, file: FileId) -> &'a [u64]
    ensures { result.now ≡ handles_of plan.now.logged.table file.0 }
{
    match plan.state().table().file(file) {
        Some(handles) => handles.as_slice(),
        None => &[],
    }
}
