//! The log's areas, read from the disk.

ghost use Rattle.std.specs.Prelude.{◌≡◌, ◌≤◌, ◌<◌, ◌+◌, length, IfOk};
ghost use Rattle.disk.specs.Bytes.{range_at};
ghost use Rattle.disk.specs.Device.{HasCause};
ghost use Rattle.disk_redo.specs.GateMoments.{OnlyReads};
ghost use Rattle.oplog.specs.Disks.{newest, open_number};

use disk::{Disk, DiskFault};
use std::alloc::Global;

/// So many bytes of the disk.
pub fn read_range<D: Disk>(
    disk: &mut D,
    alloc: Global,
    at: usize,
    count: usize,
) -> Result<Vec<u8>, DiskFault>
    requires { at + count ≤ length (D.seen disk.old) }
    ensures bytes { IfOk result (λ v. v.items ≡ range_at (D.seen disk.old) at count) }
    ensures reads { OnlyReads D.seen D.may_leave D.moment D.left_since disk.old disk.new }
    ensures cause { HasCause (D.failed disk.old) (D.failed disk.new) result }
{
    let mut bytes = Vec::from_elem(alloc, 0, count)?;
    disk.read(at, &mut bytes)?;
    Ok(bytes)
}

/// The number of an area with these first 9 bytes, where its gate is open.
pub fn open_number(front: &[u8]) -> Option<u64>
    requires { length front.now ≡ 9 }
    ensures { result ≡ open_number front.now }
{
    let (gate, number) = front.split_at(1);
    if gate[0] != 1 {
        return None;
    }
    Some(u64::from_le_bytes([
        number[0], number[1], number[2], number[3], number[4], number[5], number[6], number[7],
    ]))
}

/// The open area with the greater number: the first (0) or the second one (1). None where no area is open, or two have one number.
pub fn newest(first: Option<u64>, second: Option<u64>) -> Option<usize>
    ensures { result ≡ newest first second }
{
    match (first, second) {
        (None, None) => None,
        (Some(_), None) => Some(0),
        (None, Some(_)) => Some(1),
        (Some(a), Some(b)) if b < a => Some(0),
        (Some(a), Some(b)) if a < b => Some(1),
        _ => None,
    }
}
