//! What a read of a replica gives.

ghost use Rattle.std.specs.Prelude.{◌≡◌, ◌≤◌, ◌<◌, ◌+◌, ◌%◌, ℕ, min, length, IfOk, Some};
ghost use Rattle.std.specs.FinMap as map;
ghost use Rattle.disk.specs.Device.{HasCause};
ghost use Rattle.disk_redo.specs.GateMoments.{OnlyReads};
ghost use Rattle.disk_redo.specs.Redo.{IsAtRest};
ghost use Rattle.replica_store.specs.Replicas.{ServerDisk, read_at};
ghost use Rattle.store_disk.specs.Index.{IndexState};
ghost use Rattle.store_changes.specs.Areas.{area_of};
ghost use Rattle.store_changes.specs.Changing.{Says};
ghost use Rattle.store_disk.specs.Places.{disk_size};

use crate::blocks::read_range;
use bytes::Bytes;
use disk::{Disk, DiskFault};
use std::alloc::Global;
use store_disk::{HashedBlock, HeldReplica, Layout};

// Where a read ends, in a replica of so many bytes.
fn end_of(stored: u64, offset: u64, count: u64) -> u64
    ensures { result ≡ min (offset + count) stored }
{
    if stored <= offset {
        stored
    } else {
        offset + count.min(stored - offset)
    }
}

/// The bytes of a replica from `offset` on, at most `count`; those past its end aren't there. `None` where a block that the read touches doesn't match its digest.
pub fn read_replica<D: Disk>(
    alloc: Global,
    disk: &mut D,
    hashed: &mut HashedBlock,
    layout: Layout,
    found: HeldReplica,
    offset: u64,
    count: u64,
) -> Result<Option<Bytes>, DiskFault>
    requires size { disk_size layout.chunk layout.block layout.slots ≤ length (D.seen disk.old) }
    requires rest { IsAtRest D.seen D.may_leave (area_of layout.chunk layout.block) disk.old }
    requires slot { found.slot < layout.slots }
    requires count { found.row.count ≤ layout.chunk }
    requires whole { layout.chunk % layout.block ≡ 0 }
    ensures read { IfOk result (λ o. (index : IndexState) (d : ServerDisk) (handle : ℕ) → Says layout.chunk layout.block layout.slots index (D.seen disk.old) d
        → map.get index.held handle ≡ Some found → o ≡ read_at d handle offset count) }
    ensures reads { OnlyReads D.seen D.may_leave D.moment D.left_since disk.old disk.new }
    ensures cause { HasCause (D.failed disk.old) (D.failed disk.new) result }
{
    let end = end_of(found.row.count, offset, count);
    if end <= offset {
        return Ok(Some(Bytes::new()));
    }
    read_range(
        alloc,
        disk,
        hashed,
        layout,
        found.slot,
        offset as usize,
        end as usize,
    )
}
