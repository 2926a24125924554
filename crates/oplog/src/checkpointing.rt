//! Writing a checkpoint.

ghost use Rattle.std.specs.Prelude.{◌≡◌, ◌⊎◌, ◌<◌, ◌≤◌, ◌+◌, ◌↔◌, ◌==◌, true, false, length, slice_index_or as get_or, OnErr, OnOk, IsErrOf};
ghost use Rattle.std.specs.List.{AllByRecursion};
ghost use Rattle.disk.specs.Device.{ChangesOnly, HasCause, Only};
ghost use Rattle.disk.specs.declared.device.DiskFault.TheVariants as disk_faults;
ghost use Rattle.disk_redo.specs.GateMoments.{LeavesOnly};
ghost use Rattle.log_codec.specs.Payloads.{IsWritable};
ghost use Rattle.oplog.specs.Areas.{AreaState};
ghost use Rattle.oplog.specs.Order.{is_checkpoint};
ghost use Rattle.oplog.specs.Logs.{IsOpen, MayFail};
ghost use Rattle.oplog.specs.declared.fault.LogFault.TheVariants as faults;
ghost use Rattle.oplog.specs.Writing.{area_with};
ghost use Rattle.oplog.specs.Checkpoints.{has_place, IsClosing, IsOldOrNew};

use crate::area_writing::{room_left, write_area};
use crate::fault::LogFault;
use crate::layout::area_at;
use crate::volume::LogVolume;
use disk::{Disk, DiskFault};
use disk_redo::close;
use log_records::record::Record;
use std::alloc::Global;

// Closes a gate where it is open. A stop at any moment leaves the disk as it was, or with that gate closed.
fn close_if_open<D: Disk>(disk: &mut D, gate: usize) -> Result<(), DiskFault>
    requires durable { Only (D.seen disk.old) (D.may_leave disk.old) }
    requires room { gate < length (D.seen disk.old) }
    ensures closed { OnOk result (get_or (D.seen disk.new) gate 0 == 1 ≡ false) }
    ensures changed { OnOk result (ChangesOnly gate 1 (D.seen disk.old) (D.seen disk.new)) }
    ensures durable { OnOk result (Only (D.seen disk.new) (D.may_leave disk.new)) }
    ensures refused { IsErrOf result disk_faults.NoMemory → (D.seen disk.new ≡ D.seen disk.old) × Only (D.seen disk.new) (D.may_leave disk.new) }
    ensures read { IsClosing gate (D.seen disk.old) (D.seen disk.new) }
    ensures any_moment { LeavesOnly D.moment D.left_since disk.old disk.new (IsClosing gate (D.seen disk.old)) }
    ensures cause { HasCause (D.failed disk.old) (D.failed disk.new) result }
{
    let mut byte = [0; 1];
    disk.read(gate, &mut byte)?;
    if byte[0] != 1 {
        return Ok(());
    }
    close(disk, gate)
}

/// Writes a checkpoint into the other area: its items take the place of the volume's items and records. At `Ok` they have, for good.
///
/// `Full`: it has no room, or the areas' numbers have come to an end. `NoMemory`: an allocator refused what the call needs. Both leave what the volume says. `Device`: the disk failed in this call; the volume is open no more, and its disk holds the items and records from before, or the new items alone.
pub fn checkpoint<D: Disk>(
    volume: &mut LogVolume<D>,
    alloc: Global,
    items: &[Record],
) -> Result<(), LogFault>
    requires writable { AllByRecursion IsWritable items.now }
    requires order { is_checkpoint items.now ≡ true }
    requires is_open { (area : AreaState) × IsOpen D.seen D.may_leave volume.old area }

    ensures ok { (area : AreaState) → IsOpen D.seen D.may_leave volume.old area → OnOk result (IsOpen D.seen D.may_leave volume.new (area_with (area.number + 1) items.now)) }
    ensures full { (area : AreaState) → IsOpen D.seen D.may_leave volume.old area → (IsErrOf result faults.Full ↔ (has_place volume.old.size area items.now ≡ false)) }
    ensures still_open { (area : AreaState) → IsOpen D.seen D.may_leave volume.old area → IsErrOf result faults.NoMemory → IsOpen D.seen D.may_leave volume.new area }
    ensures unchanged { IsErrOf result faults.Full → volume.new ≡ volume.old }
    ensures undamaged { IsErrOf result faults.Damaged → ⊥ }
    ensures size { volume.new.size ≡ volume.old.size }
    ensures number { OnErr result (volume.new.number ≡ volume.old.number) }
    ensures end { OnErr result (volume.new.end ≡ volume.old.end) }
    ensures next { OnOk result (volume.new.number ≡ volume.old.number + 1) }
    ensures read { (area : AreaState) → IsOpen D.seen D.may_leave volume.old area → IsOldOrNew area items.now (D.seen volume.new.disk) }
    // A stop at any moment of the call leaves the items and records from before it, or the new items alone.
    ensures any_moment { (area : AreaState) → IsOpen D.seen D.may_leave volume.old area → LeavesOnly D.moment D.left_since volume.old.disk volume.new.disk (IsOldOrNew area items.now) }
    ensures cause { MayFail (D.failed volume.old.disk) (D.failed volume.new.disk) result }
{
    let Some(number) = volume.number.checked_add(1) else {
        return Err(LogFault::Full);
    };
    let Some(left) = room_left(items, volume.room.saturating_sub(14)) else {
        return Err(LogFault::Full);
    };
    let other = 1 - volume.which;
    let start = area_at(volume.size, other);
    volume.disk.forget_past();
    close_if_open(&mut volume.disk, start)?;
    write_area(&mut volume.disk, alloc, other, number, items)?;
    volume.which = other;
    volume.start = start;
    volume.number = number;
    volume.end = volume.room - 1 - left;
    Ok(())
}
