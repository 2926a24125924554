//! A part of a disk.

ghost use Rattle.std.specs.Prelude.{◌≡◌, ◌≤◌, ◌+◌, length, IfOk};
ghost use Rattle.disk.specs.Bytes.{range_at};
ghost use Rattle.disk.specs.Device.{HasCause};
ghost use Rattle.disk_redo.specs.GateMoments.{OnlyReads};

use bytes::Bytes;
use disk::{Disk, DiskFault};
use disk_redo::step::read;
use std::alloc::Global;

/// So many bytes of a disk, from a place on.
pub fn read_part<D: Disk>(
    alloc: Global,
    disk: &mut D,
    at: usize,
    count: usize,
) -> Result<Bytes, DiskFault>
    requires { at + count ≤ length (D.seen disk.old) }
    ensures bytes { IfOk result (λ bytes. bytes ≡ range_at (D.seen disk.old) at count) }
    ensures reads { OnlyReads D.seen D.may_leave D.moment D.left_since disk.old disk.new }
    ensures cause { HasCause (D.failed disk.old) (D.failed disk.new) result }
{
    let mut bytes = vec![in alloc; 0; count]?;
    read(disk, at, &mut bytes)?;
    Ok(Bytes::from_vec(bytes)?)
}
