//! Opening a redo area.

ghost use Rattle.std.specs.Prelude.{◌≡◌, length, true, None, OnOk};
ghost use Rattle.disk.specs.Device.{HasCause, Only};
ghost use Rattle.disk_redo.specs.GateMoments.{LeavesOnly};
ghost use Rattle.disk_redo.specs.Redo.{IsAreaOf, IsAtRest, StandsOnly, is_open, redo_in, stands_for};
ghost use Rattle.disk_redo.specs.Opening.{IsOpening};

use crate::making::finish;
use crate::range::RedoArea;
use crate::reading::{read_change, read_gate};
use crate::step::{begin, sync, write};
use disk::{Disk, DiskFault};
use std::alloc::Global;

// Closes a gate behind which no change stands. The disk stands for what it stood for.
fn close_gate<D: Disk>(disk: &mut D, area: RedoArea) -> Result<(), DiskFault>
    requires area { IsAreaOf area (length (D.seen disk.old)) }
    requires redo { redo_in area (D.seen disk.old) ≡ None }
    requires durable { Only (D.seen disk.old) (D.may_leave disk.old) }
    ensures rest { OnOk result (IsAtRest D.seen D.may_leave area disk.new) }
    ensures stands { StandsOnly D.seen D.moment D.left_since area disk.old disk.new (λ bytes. bytes ≡ stands_for area (D.seen disk.old)) }
    ensures size { length (D.seen disk.new) ≡ length (D.seen disk.old) }
    ensures cause { HasCause (D.failed disk.old) (D.failed disk.new) result }
{
    write(disk, area.place, &[0])?;
    sync(disk)
}

// Makes the change that stands behind the open gate, and closes it. The disk stands for what it stood for.
fn redo<D: Disk>(alloc: Global, disk: &mut D, area: RedoArea) -> Result<(), DiskFault>
    requires area { IsAreaOf area (length (D.seen disk.old)) }
    requires opened { is_open area (D.seen disk.old) ≡ true }
    requires durable { Only (D.seen disk.old) (D.may_leave disk.old) }
    ensures rest { OnOk result (IsAtRest D.seen D.may_leave area disk.new) }
    ensures stands { StandsOnly D.seen D.moment D.left_since area disk.old disk.new (λ bytes. bytes ≡ stands_for area (D.seen disk.old)) }
    ensures size { length (D.seen disk.new) ≡ length (D.seen disk.old) }
    ensures cause { HasCause (D.failed disk.old) (D.failed disk.new) result }
{
    match read_change(alloc, disk, area)? {
        Some(ranges) => finish(disk, area, &ranges),
        None => close_gate(disk, area),
    }
}

/// Opens the area after a stop: a change that stands behind an open gate is made as a whole. Comes before any [`commit`](crate::commit).
///
/// The disk stands for what it stood for. A stop at any moment leaves what a stop before the call might have left, or a disk that stands for the same; so does an error, and then the area is to be opened again. `Device` is answered only where the disk failed, `NoMemory` only where memory was refused.
pub fn open<D: Disk>(alloc: Global, disk: &mut D, area: RedoArea) -> Result<(), DiskFault>
    requires { IsAreaOf area (length (D.seen disk.old)) }
    ensures rest { OnOk result (IsAtRest D.seen D.may_leave area disk.new) }
    ensures same { stands_for area (D.seen disk.new) ≡ stands_for area (D.seen disk.old) }
    ensures any_moment { LeavesOnly D.moment D.left_since disk.old disk.new (IsOpening area (D.seen disk.old) (D.may_leave disk.old)) }
    ensures size { length (D.seen disk.new) ≡ length (D.seen disk.old) }
    ensures cause { HasCause (D.failed disk.old) (D.failed disk.new) result }
{
    begin(disk);
    sync(disk)?;
    if read_gate(disk, area)? {
        redo(alloc, disk, area)
    } else {
        Ok(())
    }
}
