//! One call of a disk, as one more of a run.

ghost use Rattle.std.specs.Prelude.{◌≡◌, ◌≤◌, ◌+◌, ℕ, Bool, List, length, OnOk};
ghost use Rattle.disk.specs.Bytes.{put_at, range_at};
ghost use Rattle.disk.specs.Device.{HasCause, Only};
ghost use Rattle.disk_redo.specs.GateMoments.{OnlyReads};
ghost use Rattle.disk_redo.specs.Moments.{ChangesBut, Misses};

use disk::{Disk, DiskFault};

/// Begins a call: what was before this moment is told no more. Any run goes on.
pub fn begin<D: Disk>(disk: &mut D)
    ensures seen { D.seen disk.new ≡ D.seen disk.old }
    ensures reads { OnlyReads D.seen D.may_leave D.moment D.left_since disk.old disk.new }
    ensures goes_on { (start : D) (kept : ℕ → Bool)
        → ChangesBut D.seen D.may_leave D.moment D.left_since kept start disk.old
        → ChangesBut D.seen D.may_leave D.moment D.left_since kept start disk.new }
    ensures failed { D.failed disk.new ≡ D.failed disk.old }
{
    disk.forget_past();
}

/// Fills `out` with the bytes from a place on.
pub fn read<D: Disk>(disk: &mut D, at: usize, out: &mut [u8]) -> Result<(), DiskFault>
    requires { at + length out.old ≤ length (D.seen disk.old) }
    ensures bytes { OnOk result (out.new ≡ range_at (D.seen disk.old) at (length out.old)) }
    ensures seen { D.seen disk.new ≡ D.seen disk.old }
    ensures reads { OnlyReads D.seen D.may_leave D.moment D.left_since disk.old disk.new }
    ensures cause { HasCause (D.failed disk.old) (D.failed disk.new) result }
{
    disk.read(at, out)
}

/// Writes these bytes. A run that keeps some places goes on where they lie outside of the range.
pub fn write<D: Disk>(disk: &mut D, at: usize, bytes: &[u8]) -> Result<(), DiskFault>
    requires { at + length bytes.now ≤ length (D.seen disk.old) }
    ensures written { OnOk result (D.seen disk.new ≡ put_at (D.seen disk.old) at bytes.now) }
    ensures size { length (D.seen disk.new) ≡ length (D.seen disk.old) }
    ensures goes_on { (start : D) (kept : ℕ → Bool) → Misses kept at (length bytes.now)
        → ChangesBut D.seen D.may_leave D.moment D.left_since kept start disk.old
        → ChangesBut D.seen D.may_leave D.moment D.left_since kept start disk.new }
    ensures cause { HasCause (D.failed disk.old) (D.failed disk.new) result }
{
    disk.write_at(at, bytes)
}

/// Makes all durable. Any run goes on.
pub fn sync<D: Disk>(disk: &mut D) -> Result<(), DiskFault>
    ensures durable { OnOk result (Only (D.seen disk.new) (D.may_leave disk.new)) }
    ensures seen { D.seen disk.new ≡ D.seen disk.old }
    ensures reads { OnlyReads D.seen D.may_leave D.moment D.left_since disk.old disk.new }
    ensures goes_on { (start : D) (kept : ℕ → Bool)
        → ChangesBut D.seen D.may_leave D.moment D.left_since kept start disk.old
        → ChangesBut D.seen D.may_leave D.moment D.left_since kept start disk.new }
    ensures cause { HasCause (D.failed disk.old) (D.failed disk.new) result }
{
    disk.sync()
}
