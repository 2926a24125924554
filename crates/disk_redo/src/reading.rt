//! What stands in a redo area on a disk.

ghost use Rattle.std.specs.Prelude.{◌≡◌, ◌≤◌, ◌+◌, length, IfOk};
ghost use Rattle.std.specs.Option.{option_map};
ghost use Rattle.disk.specs.Bytes.{range_at};
ghost use Rattle.disk.specs.Device.{HasCause};
ghost use Rattle.disk_redo.specs.GateMoments.{OnlyReads};
ghost use Rattle.disk_redo.specs.Redo.{IsAreaOf, is_open, redo_in};

use crate::parsing::{keep_placed, parse};
use crate::step::read;
use crate::{RedoArea, RedoRange};
use bytes::Bytes;
use disk::{Disk, DiskFault};
use std::alloc::Global;

// So many bytes from a place on.
fn read_bytes<D: Disk>(
    alloc: Global,
    disk: &mut D,
    at: usize,
    count: usize,
) -> Result<Bytes, DiskFault>
    requires { at + count ≤ length (D.seen disk.old) }
    ensures bytes { IfOk result (λ bytes. bytes ≡ range_at (D.seen disk.old) at count) }
    ensures seen { D.seen disk.new ≡ D.seen disk.old }
    ensures reads { OnlyReads D.seen D.may_leave D.moment D.left_since disk.old disk.new }
    ensures cause { HasCause (D.failed disk.old) (D.failed disk.new) result }
{
    let mut out = vec![in alloc; 0; count]?;
    read(disk, at, &mut out)?;
    Ok(Bytes::from_vec(out)?)
}

/// Whether the gate is open.
pub fn read_gate<D: Disk>(disk: &mut D, area: RedoArea) -> Result<bool, DiskFault>
    requires { IsAreaOf area (length (D.seen disk.old)) }
    ensures gate { IfOk result (λ opened. opened ≡ is_open area (D.seen disk.old)) }
    ensures seen { D.seen disk.new ≡ D.seen disk.old }
    ensures reads { OnlyReads D.seen D.may_leave D.moment D.left_since disk.old disk.new }
    ensures cause { HasCause (D.failed disk.old) (D.failed disk.new) result }
{
    let mut gate = [0];
    read(disk, area.place, &mut gate)?;
    Ok(gate[0] == 1)
}

/// The change that stands behind the gate, if one does.
pub fn read_change<D: Disk>(
    alloc: Global,
    disk: &mut D,
    area: RedoArea,
) -> Result<Option<Vec<RedoRange>>, DiskFault>
    requires { IsAreaOf area (length (D.seen disk.old)) }
    ensures change { IfOk result (λ found. option_map (λ v. v.items) found ≡ redo_in area (D.seen disk.old)) }
    ensures seen { D.seen disk.new ≡ D.seen disk.old }
    ensures reads { OnlyReads D.seen D.may_leave D.moment D.left_since disk.old disk.new }
    ensures cause { HasCause (D.failed disk.old) (D.failed disk.new) result }
{
    let mut count = [0; 2];
    read(disk, area.place + 1, &mut count)?;
    let bytes = read_bytes(alloc, disk, area.place + 3, area.size - 3)?;
    let found = parse(alloc, u16::from_le_bytes(count), bytes)?;
    Ok(keep_placed(area, disk.size(), found))
}
