//! A change, made as a whole or not at all.

ghost use Rattle.std.specs.Prelude.{◌≡◌, length, true, false, OnOk, Some};
ghost use Rattle.disk.specs.Device.{HasCause, Only};
ghost use Rattle.disk_redo.specs.Changes.{applied};
ghost use Rattle.disk_redo.specs.Redo.{FitsArea, IsAreaOf, IsAtRest, IsBeforeOrAfter, StandsOnly, is_open, redo_in, stands_for};

use crate::range::{RedoArea, RedoRange};
use crate::staging::stage;
use crate::step::{sync, write};
use disk::{Disk, DiskFault};

// Opens the gate, behind which the change stands. From then on it counts as made.
fn open_gate<D: Disk>(disk: &mut D, area: RedoArea, ranges: &[RedoRange]) -> Result<(), DiskFault>
    requires area { IsAreaOf area (length (D.seen disk.old)) }
    requires redo { redo_in area (D.seen disk.old) ≡ Some ranges.now }
    requires closed { is_open area (D.seen disk.old) ≡ false }
    requires durable { Only (D.seen disk.old) (D.may_leave disk.old) }
    ensures opened { OnOk result (is_open area (D.seen disk.new) ≡ true) }
    ensures redo { OnOk result (redo_in area (D.seen disk.new) ≡ Some ranges.now) }
    ensures durable { OnOk result (Only (D.seen disk.new) (D.may_leave disk.new)) }
    ensures made { OnOk result (stands_for area (D.seen disk.new) ≡ applied ranges.now (stands_for area (D.seen disk.old))) }
    ensures stands { StandsOnly D.seen D.moment D.left_since area disk.old disk.new (IsBeforeOrAfter ranges.now (stands_for area (D.seen disk.old))) }
    ensures size { length (D.seen disk.new) ≡ length (D.seen disk.old) }
    ensures cause { HasCause (D.failed disk.old) (D.failed disk.new) result }
{
    write(disk, area.place, &[1])?;
    sync(disk)
}

/// Puts the ranges in place, and closes the gate. The disk stands for what it stood for.
pub fn finish<D: Disk>(disk: &mut D, area: RedoArea, ranges: &[RedoRange]) -> Result<(), DiskFault>
    requires area { IsAreaOf area (length (D.seen disk.old)) }
    requires redo { redo_in area (D.seen disk.old) ≡ Some ranges.now }
    requires opened { is_open area (D.seen disk.old) ≡ true }
    requires durable { Only (D.seen disk.old) (D.may_leave disk.old) }
    ensures rest { OnOk result (IsAtRest D.seen D.may_leave area disk.new) }
    ensures stands { StandsOnly D.seen D.moment D.left_since area disk.old disk.new (λ bytes. bytes ≡ stands_for area (D.seen disk.old)) }
    ensures size { length (D.seen disk.new) ≡ length (D.seen disk.old) }
    ensures cause { HasCause (D.failed disk.old) (D.failed disk.new) result }
{
    for range in ranges {
        write(disk, range.place, &range.bytes)?;
    }
    sync(disk)?;
    write(disk, area.place, &[0])?;
    sync(disk)
}

/// Makes a change: all its ranges, or none.
///
/// The gate is closed and all is durable before the call, and again after `Ok`. A stop at any moment leaves a disk that stands for what it stood for before the call or after it, and so does an error; then the area is to be opened again. `Device` is answered only where the disk failed, `NoMemory` only where it was refused memory for a write.
pub fn commit<D: Disk>(disk: &mut D, area: RedoArea, ranges: &[RedoRange]) -> Result<(), DiskFault>
    requires area { IsAreaOf area (length (D.seen disk.old)) }
    requires rest { IsAtRest D.seen D.may_leave area disk.old }
    requires fits { FitsArea area (length (D.seen disk.old)) ranges.now }
    ensures rest { OnOk result (IsAtRest D.seen D.may_leave area disk.new) }
    ensures made { OnOk result (stands_for area (D.seen disk.new) ≡ applied ranges.now (stands_for area (D.seen disk.old))) }
    ensures any_moment { StandsOnly D.seen D.moment D.left_since area disk.old disk.new (IsBeforeOrAfter ranges.now (stands_for area (D.seen disk.old))) }
    ensures size { length (D.seen disk.new) ≡ length (D.seen disk.old) }
    ensures cause { HasCause (D.failed disk.old) (D.failed disk.new) result }
{
    stage(disk, area, ranges)?;
    open_gate(disk, area, ranges)?;
    finish(disk, area, ranges)
}
