//! A change, written behind the closed gate.

ghost use Rattle.std.specs.Prelude.{◌≡◌, ◌≤◌, ◌<◌, ◌+◌, ◌^◌, ℕ, Bool, length, false, OnOk, Some};
ghost use Rattle.disk.specs.Bytes.{put_at};
ghost use Rattle.disk.specs.Device.{HasCause, Only};
ghost use Rattle.disk_redo.specs.Moments.{ChangesBut, Misses};
ghost use Rattle.disk_redo.specs.Redo.{FitsArea, IsAreaOf, IsAtRest, StandsOnly, is_open, range_bytes, redo_bytes, redo_in, stands_for};

use crate::range::{RedoArea, RedoRange};
use crate::step::{begin, sync, write};
use disk::{Disk, DiskFault};

// Writes one range with its place and its length.
fn write_range<D: Disk>(disk: &mut D, at: usize, range: &RedoRange) -> Result<(), DiskFault>
    requires fits { at + length (range_bytes range.now) ≤ length (D.seen disk.old) }
    requires small { at + length (range_bytes range.now) < 2 ^ 32 }
    ensures written { OnOk result (D.seen disk.new ≡ put_at (D.seen disk.old) at (range_bytes range.now)) }
    ensures size { length (D.seen disk.new) ≡ length (D.seen disk.old) }
    ensures goes_on { (start : D) (kept : ℕ → Bool) → Misses kept at (length (range_bytes range.now))
        → ChangesBut D.seen D.may_leave D.moment D.left_since kept start disk.old
        → ChangesBut D.seen D.may_leave D.moment D.left_since kept start disk.new }
    ensures cause { HasCause (D.failed disk.old) (D.failed disk.new) result }
{
    write(disk, at, &range.place.to_le_bytes())?;
    write(disk, at + 8, &(range.bytes.len() as u32).to_le_bytes())?;
    write(disk, at + 12, &range.bytes)
}

// Writes the number of ranges, and each.
fn write_ranges<D: Disk>(disk: &mut D, at: usize, ranges: &[RedoRange]) -> Result<(), DiskFault>
    requires fits { at + length (redo_bytes ranges.now) ≤ length (D.seen disk.old) }
    requires small { at + length (redo_bytes ranges.now) < 2 ^ 32 }
    requires count { length ranges.now < 2 ^ 16 }
    ensures written { OnOk result (D.seen disk.new ≡ put_at (D.seen disk.old) at (redo_bytes ranges.now)) }
    ensures size { length (D.seen disk.new) ≡ length (D.seen disk.old) }
    ensures goes_on { (start : D) (kept : ℕ → Bool) → Misses kept at (length (redo_bytes ranges.now))
        → ChangesBut D.seen D.may_leave D.moment D.left_since kept start disk.old
        → ChangesBut D.seen D.may_leave D.moment D.left_since kept start disk.new }
    ensures cause { HasCause (D.failed disk.old) (D.failed disk.new) result }
{
    write(disk, at, &(ranges.len() as u16).to_le_bytes())?;
    let mut place = at + 2;
    for range in ranges {
        write_range(disk, place, range)?;
        place += 12 + range.bytes.len();
    }
    Ok(())
}

// Writes the change behind the closed gate, and makes it durable. The disk stands for what it stood for.
pub fn stage<D: Disk>(disk: &mut D, area: RedoArea, ranges: &[RedoRange]) -> Result<(), DiskFault>
    requires area { IsAreaOf area (length (D.seen disk.old)) }
    requires rest { IsAtRest D.seen D.may_leave area disk.old }
    requires fits { FitsArea area (length (D.seen disk.old)) ranges.now }
    ensures redo { OnOk result (redo_in area (D.seen disk.new) ≡ Some ranges.now) }
    ensures closed { is_open area (D.seen disk.new) ≡ false }
    ensures durable { OnOk result (Only (D.seen disk.new) (D.may_leave disk.new)) }
    ensures stands { StandsOnly D.seen D.moment D.left_since area disk.old disk.new (λ bytes. bytes ≡ stands_for area (D.seen disk.old)) }
    ensures size { length (D.seen disk.new) ≡ length (D.seen disk.old) }
    ensures cause { HasCause (D.failed disk.old) (D.failed disk.new) result }
{
    let _size = disk.size();
    begin(disk);
    write_ranges(disk, area.place + 1, ranges)?;
    sync(disk)
}
