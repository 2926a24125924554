//! A mutation of a replica.

ghost use Rattle.std.specs.Prelude.{◌≡◌, ◌≤◌, ◌<◌, ◌+◌, ◌%◌, ℕ, true, false, max, length, IfOk, IfSome, OnOk, Some, None, option_map};
ghost use Rattle.std.specs.FinMap as map;
ghost use Rattle.disk.specs.Device.{HasCause};
ghost use Rattle.disk_redo.specs.GateMoments.{OnlyReads};
ghost use Rattle.disk_redo.specs.Redo.{FitsArea, IsAtRest};
ghost use Rattle.replica_store.specs.declared.change.StoreChange.TheVariants.{Write};
ghost use Rattle.replica_store.specs.Replicas.{Replica, ServerDisk, disk_changed, is_writable_at};
ghost use Rattle.store_changes.specs.Areas.{area_of};
ghost use Rattle.store_changes.specs.Changing.{LeavesEither, Says};
ghost use Rattle.store_disk.specs.Fields.{FitsHeader};
ghost use Rattle.store_disk.specs.Places.{disk_size};
ghost use Rattle.store_changes.specs.Writing.{checked_ranges as checked_value};
ghost use Rattle.store_disk.specs.Stored.{Holds, header_of};

use crate::ranges::{header_range, write_ranges};
use crate::{change, read_edges};
use bytes::Bytes;
use disk::{Disk, DiskFault};
use disk_redo::RedoRange;
use gfs_types::ids::{Handle, Serial};
use replica_store::row::Row;
use std::alloc::Global;
use store_disk::{HashedBlock, HeldReplica, Layout, SlotIndex};

// What is known of a replica after a mutation of this serial that ends there.
fn row_after(row: Row, serial: Serial, end: u64) -> Row
    ensures { result ≡ record { version = row.version; serial = serial; count = max row.count end } }
{
    let count = if row.count < end { end } else { row.count };
    Row {
        version: row.version,
        serial,
        count,
    }
}

// What is written; `None` where a part of a block stays, and the first or the last block doesn't match its digest.
fn checked_ranges<D: Disk>(
    alloc: Global,
    disk: &mut D,
    hashed: &mut HashedBlock,
    layout: Layout,
    handle: Handle,
    new: HeldReplica,
    offset: usize,
    bytes: &Bytes,
) -> Result<Option<Vec<RedoRange>>, DiskFault>
    requires size { disk_size layout.chunk layout.block layout.slots ≤ length (D.seen disk.old) }
    requires slot { new.slot < layout.slots }
    requires whole { layout.chunk % layout.block ≡ 0 }
    requires within { offset + length bytes.now ≤ layout.chunk }
    ensures ranges { IfOk result (λ o. (h : ℕ) (r : Replica) → Holds layout.chunk layout.block (D.seen disk.old) new.slot h r
        → option_map (λ v. v.items) o ≡ checked_value layout.chunk layout.block r new.slot handle.0 new.row offset bytes.now) }
    ensures fits { FitsHeader (header_of handle.0 new.row) }
    ensures room { IfOk result (λ o. IfSome o (λ v. FitsArea (area_of layout.chunk layout.block) (length (D.seen disk.old)) v.items)) }
    ensures reads { OnlyReads D.seen D.may_leave D.moment D.left_since disk.old disk.new }
    ensures cause { HasCause (D.failed disk.old) (D.failed disk.new) result }
{
    let _numbers = (handle.0, new.row.version.0, new.row.serial.0, new.row.count);
    let count = bytes.len();
    if count == 0 {
        let header = header_range(alloc, layout, new.slot, handle, new.row)?;
        return Ok(Some(header));
    }
    let end = offset + count;
    let Some(edges) = read_edges(alloc, disk, hashed, layout, new.slot, offset, end)? else {
        return Ok(None);
    };
    let ranges = write_ranges(
        alloc, hashed, layout, new.slot, handle, new.row, &edges, offset, bytes,
    )?;
    Ok(Some(ranges))
}

/// Puts these bytes into a replica, as the mutation of this serial. `false`: a part of a block would stay, and the first or the last block of the range doesn't match its digest; nothing has changed.
///
/// A stop at any moment, and an error, leave a disk with the replica before the mutation or after it. After an error the disk is to be opened again.
pub fn write<D: Disk>(
    alloc: Global,
    disk: &mut D,
    hashed: &mut HashedBlock,
    layout: Layout,
    index: &mut SlotIndex,
    handle: Handle,
    found: HeldReplica,
    serial: Serial,
    offset: u64,
    bytes: &Bytes,
) -> Result<bool, DiskFault>
    requires size { disk_size layout.chunk layout.block layout.slots ≤ length (D.seen disk.old) }
    requires rest { IsAtRest D.seen D.may_leave (area_of layout.chunk layout.block) disk.old }
    requires found { map.get index.old.held handle.0 ≡ Some found }
    requires slot { found.slot < layout.slots }
    requires whole { layout.chunk % layout.block ≡ 0 }
    requires within { offset + length bytes.now ≤ layout.chunk }
    ensures rest { OnOk result (IsAtRest D.seen D.may_leave (area_of layout.chunk layout.block) disk.new) }
    ensures writable { IfOk result (λ written. (d : ServerDisk) → Says layout.chunk layout.block layout.slots index.old (D.seen disk.old) d
        → written ≡ is_writable_at d handle.0 offset (offset + length bytes.now)) }
    ensures made { IfOk result (λ written. written ≡ true → (d : ServerDisk) → Says layout.chunk layout.block layout.slots index.old (D.seen disk.old) d
        → Says layout.chunk layout.block layout.slots index.new (D.seen disk.new) (disk_changed d (Write handle serial offset bytes.now))) }
    ensures unchanged { IfOk result (λ written. written ≡ false → (index.new ≡ index.old) × (D.seen disk.new ≡ D.seen disk.old)) }
    // A range that can't be written over is only looked at.
    ensures untouched { (d : ServerDisk) → Says layout.chunk layout.block layout.slots index.old (D.seen disk.old) d
        → is_writable_at d handle.0 offset (offset + length bytes.now) ≡ false → OnlyReads D.seen D.may_leave D.moment D.left_since disk.old disk.new }
    ensures any_moment { LeavesEither D.seen D.moment D.left_since layout.chunk layout.block layout.slots disk.old disk.new index.old (Write handle serial offset bytes.now) }
    ensures size { length (D.seen disk.new) ≡ length (D.seen disk.old) }
    ensures cause { HasCause (D.failed disk.old) (D.failed disk.new) result }
{
    let count = bytes.len();
    let row = row_after(found.row, serial, offset + count as u64);
    let new = HeldReplica {
        slot: found.slot,
        row,
    };
    let Some(ranges) = checked_ranges(
        alloc,
        disk,
        hashed,
        layout,
        handle,
        new,
        offset as usize,
        bytes,
    )?
    else {
        return Ok(false);
    };
    index.update(handle, new)?;
    change(disk, layout, &ranges)?;
    Ok(true)
}
