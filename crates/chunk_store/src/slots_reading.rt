//! What a disk with an open head holds.

ghost use Rattle.std.specs.Prelude.{◌≡◌, ◌≤◌, length, IfOk, OnOk, IsErrOf};
ghost use Rattle.disk.specs.Bytes.{range_at};
ghost use Rattle.disk.specs.Device.{HasCause};
ghost use Rattle.disk_redo.specs.GateMoments.{LeavesOnly, OnlyReads};
ghost use Rattle.disk_redo.specs.Redo.{IsAtRest, stands_for};
ghost use Rattle.disk_redo.specs.Opening.{IsOpening as IsRedoing};
ghost use Rattle.replica_store.specs.Replicas.{ServerDisk};
ghost use Rattle.store_disk.specs.Index.{IndexState};
ghost use Rattle.store_changes.specs.Areas.{area_of};
ghost use Rattle.store_disk.specs.Fields.{order_in};
ghost use Rattle.store_disk.specs.Places.{disk_size};
ghost use Rattle.chunk_store.specs.Opening.{IsFound};
ghost use Rattle.store_disk.specs.Stored.{IsDiskOf, IsStored};

use crate::finding::find_replicas;
use crate::found::FoundReplicas;
use disk::{Disk, DiskFault};
use disk_redo::step::read;
use disk_redo::{RedoArea, open};
use gfs_types::ids::OrderNo;
use std::alloc::Global;
use store_disk::{Layout, read_order};

fn redo_area_of(layout: Layout) -> RedoArea
    ensures { result ≡ area_of layout.chunk layout.block }
{
    RedoArea {
        place: 48,
        size: layout.redo_size(),
        first: 32,
    }
}

// The number of the last order that was taken.
fn read_last_order<D: Disk>(disk: &mut D) -> Result<OrderNo, DiskFault>
    requires { 48 ≤ length (D.seen disk.old) }
    ensures order { IfOk result (λ order. order ≡ order_in (range_at (D.seen disk.old) 32 16)) }
    ensures reads { OnlyReads D.seen D.may_leave D.moment D.left_since disk.old disk.new }
    ensures cause { HasCause (D.failed disk.old) (D.failed disk.new) result }
{
    let mut bytes = [0; 16];
    read(disk, 32, &mut bytes)?;
    Ok(read_order(&bytes))
}

// The order and the replicas of a disk at rest.
fn read_found<D: Disk>(
    alloc: Global,
    disk: &mut D,
    layout: Layout,
) -> Result<FoundReplicas, DiskFault>
    requires { disk_size layout.chunk layout.block layout.slots ≤ length (D.seen disk.old) }
    ensures found { IfOk result (λ found. (index : IndexState) (d : ServerDisk) → IsDiskOf layout.chunk layout.block layout.slots index (D.seen disk.old) d → IsFound layout.chunk layout.block layout.slots found (D.seen disk.old) d) }
    ensures reads { OnlyReads D.seen D.may_leave D.moment D.left_since disk.old disk.new }
    ensures cause { HasCause (D.failed disk.old) (D.failed disk.new) result }
{
    let order = read_last_order(disk)?;
    let index = find_replicas(alloc, disk, layout)?;
    Ok(FoundReplicas { order, index })
}

/// Opens a disk whose head is this layout's: makes the change that was under way, and finds the replicas.
///
/// A stop at any moment leaves what a stop before the call might have left, or a disk that stands for the same. After an error the disk is to be opened again.
pub fn open_formatted<D: Disk>(
    alloc: Global,
    disk: &mut D,
    layout: Layout,
) -> Result<FoundReplicas, DiskFault>
    requires { disk_size layout.chunk layout.block layout.slots ≤ length (D.seen disk.old) }
    ensures rest { OnOk result (IsAtRest D.seen D.may_leave (area_of layout.chunk layout.block) disk.new) }
    ensures found { IfOk result (λ found. (d : ServerDisk) → IsStored layout.chunk layout.block layout.slots (stands_for (area_of layout.chunk layout.block) (D.seen disk.old)) d
        → IsFound layout.chunk layout.block layout.slots found (stands_for (area_of layout.chunk layout.block) (D.seen disk.new)) d) }
    ensures same { stands_for (area_of layout.chunk layout.block) (D.seen disk.new) ≡ stands_for (area_of layout.chunk layout.block) (D.seen disk.old) }
    ensures any_moment { LeavesOnly D.moment D.left_since disk.old disk.new (IsRedoing (area_of layout.chunk layout.block) (D.seen disk.old) (D.may_leave disk.old)) }
    ensures size { length (D.seen disk.new) ≡ length (D.seen disk.old) }
    ensures cause { HasCause (D.failed disk.old) (D.failed disk.new) result }
{
    let area = redo_area_of(layout);
    let _blocks = layout.blocks();
    open(alloc, disk, area)?;
    read_found(alloc, disk, layout)
}
