//! The replicas of a disk, from its slots' headers.

ghost use Rattle.std.specs.Prelude.{◌≡◌, ◌<◌, ◌≤◌, ◌+◌, length, IfOk, OnOk};
ghost use Rattle.disk.specs.Bytes.{range_at};
ghost use Rattle.disk.specs.Device.{HasCause};
ghost use Rattle.disk_redo.specs.GateMoments.{OnlyReads};
ghost use Rattle.replica_store.specs.Replicas.{ServerDisk};
ghost use Rattle.store_disk.specs.Index.{IndexState};
ghost use Rattle.store_disk.specs.Fields.{header_in};
ghost use Rattle.chunk_store.specs.Finding.{KnowsFirst};
ghost use Rattle.store_disk.specs.Places.{disk_size, slot_place};
ghost use Rattle.store_disk.specs.Stored.{IsDiskOf};

use disk::{Disk, DiskFault};
use disk_redo::step::read;
use replica_store::row::Row;
use std::alloc::Global;
use store_disk::{HeldReplica, Layout, SlotHeader, SlotIndex, read_header};

/// What a slot says of its replica.
pub fn read_slot<D: Disk>(
    disk: &mut D,
    layout: Layout,
    slot: u32,
) -> Result<Option<SlotHeader>, DiskFault>
    requires slot { slot ≤ layout.slots }
    requires within { slot_place layout.chunk layout.block slot + 40 ≤ length (D.seen disk.old) }
    ensures header { IfOk result (λ h. h ≡ header_in (range_at (D.seen disk.old) (slot_place layout.chunk layout.block slot) 40)) }
    ensures seen { D.seen disk.new ≡ D.seen disk.old }
    ensures reads { OnlyReads D.seen D.may_leave D.moment D.left_since disk.old disk.new }
    ensures cause { HasCause (D.failed disk.old) (D.failed disk.new) result }
{
    let mut bytes = [0; 40];
    read(disk, layout.slot(slot), &mut bytes)?;
    Ok(read_header(&bytes))
}

// With what one slot more says.
fn find_in_slot<D: Disk>(
    disk: &mut D,
    layout: Layout,
    slot: u32,
    found: &mut SlotIndex,
) -> Result<(), DiskFault>
    requires slot { slot < layout.slots }
    requires size { disk_size layout.chunk layout.block layout.slots ≤ length (D.seen disk.old) }
    ensures found { OnOk result ((all : IndexState) (d : ServerDisk) → IsDiskOf layout.chunk layout.block layout.slots all (D.seen disk.old) d
        → KnowsFirst layout.chunk layout.block layout.slots (D.seen disk.old) all slot found.old
        → KnowsFirst layout.chunk layout.block layout.slots (D.seen disk.old) all (slot + 1) found.new) }
    ensures seen { D.seen disk.new ≡ D.seen disk.old }
    ensures reads { OnlyReads D.seen D.may_leave D.moment D.left_since disk.old disk.new }
    ensures cause { HasCause (D.failed disk.old) (D.failed disk.new) result }
{
    let Some(header) = read_slot(disk, layout, slot)? else {
        return Ok(());
    };
    let row = Row {
        version: header.version,
        serial: header.serial,
        count: header.count,
    };
    found.occupy(header.handle, HeldReplica { slot, row })?;
    Ok(())
}

/// Finds the replicas of a disk and its free slots. Reads the slots' headers alone.
pub fn find_replicas<D: Disk>(
    alloc: Global,
    disk: &mut D,
    layout: Layout,
) -> Result<SlotIndex, DiskFault>
    requires { disk_size layout.chunk layout.block layout.slots ≤ length (D.seen disk.old) }
    ensures found { IfOk result (λ found. (index : IndexState) (d : ServerDisk) → IsDiskOf layout.chunk layout.block layout.slots index (D.seen disk.old) d → IsDiskOf layout.chunk layout.block layout.slots found (D.seen disk.old) d) }
    ensures reads { OnlyReads D.seen D.may_leave D.moment D.left_since disk.old disk.new }
    ensures cause { HasCause (D.failed disk.old) (D.failed disk.new) result }
{
    let mut found = SlotIndex::new(alloc, layout.slots)?;
    for slot in 0..layout.slots {
        find_in_slot(disk, layout, slot, &mut found)?;
    }
    Ok(found)
}
