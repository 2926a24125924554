//! Formatting a disk on which no log stands yet.

ghost use Rattle.std.specs.Prelude.{◌≡◌, ◌≤◌, ◌+◌, [], ◌∷◌, false, length, IsErrOf, OnOk};
ghost use Rattle.disk.specs.Device.{HasCause, Only};
ghost use Rattle.disk_redo.specs.GateMoments.{LeavesOnly};
ghost use Rattle.oplog.specs.Areas.{AreaSays};
ghost use Rattle.oplog.specs.Disks.{area_of, is_formatted, DiskSays};
ghost use Rattle.oplog.specs.Logs.{MayFail};
ghost use Rattle.oplog.specs.declared.fault.LogFault.TheVariants as faults;
ghost use Rattle.oplog.specs.Writing.{area_with, is_area_open};
ghost use Rattle.oplog.specs.NewLogs.{IsLogOf};

use crate::area_writing::write_area;
use crate::fault::LogFault;
use crate::layout::area_at;
use disk::{Disk, DiskFault};
use disk_redo::gate::commit;
use std::alloc::Global;

// The head but for its gate: `GFSL`, 1, the open gate of format 2, and zeros.
const HEAD: [u8; 15] = [71, 70, 83, 76, 1, 1, 0, 0, 0, 0, 0, 0, 0, 0, 0];

// Closes both areas. The head stays closed.
fn close_areas<D: Disk>(disk: &mut D) -> Result<(), DiskFault>
    requires large { 4096 ≤ length (D.seen disk.old) }
    requires new { is_formatted (D.seen disk.old) ≡ false }
    requires durable { Only (D.seen disk.old) (D.may_leave disk.old) }
    ensures first { OnOk result (is_area_open (length (D.seen disk.new)) 0 (D.seen disk.new) ≡ false) }
    ensures second { OnOk result (is_area_open (length (D.seen disk.new)) 1 (D.seen disk.new) ≡ false) }
    ensures size { length (D.seen disk.new) ≡ length (D.seen disk.old) }
    ensures durable { OnOk result (Only (D.seen disk.new) (D.may_leave disk.new)) }
    ensures read { is_formatted (D.seen disk.new) ≡ false }
    ensures any_moment { LeavesOnly D.moment D.left_since disk.old disk.new (λ c. is_formatted c ≡ false) }
    ensures cause { HasCause (D.failed disk.old) (D.failed disk.new) result }
{
    let first = area_at(disk.size(), 0);
    let second = area_at(disk.size(), 1);
    disk.write_at(first, &[0])?;
    disk.write_at(second, &[0])?;
    disk.sync()?;
    Ok(())
}

// Writes the head behind its gate, and opens it. The first area is current, and empty.
fn write_head<D: Disk>(disk: &mut D) -> Result<(), DiskFault>
    requires large { 4096 ≤ length (D.seen disk.old) }
    requires new { is_formatted (D.seen disk.old) ≡ false }
    requires durable { Only (D.seen disk.old) (D.may_leave disk.old) }
    requires first { AreaSays (area_with 1 []) (area_of (length (D.seen disk.old)) 0 (D.seen disk.old)) }
    requires second { is_area_open (length (D.seen disk.old)) 1 (D.seen disk.old) ≡ false }
    ensures formatted { OnOk result (DiskSays (length (D.seen disk.old)) 0 (area_with 1 []) (D.seen disk.new)) }
    ensures durable { OnOk result (Only (D.seen disk.new) (D.may_leave disk.new)) }
    ensures read { IsLogOf [] [] (D.seen disk.new) }
    ensures any_moment { LeavesOnly D.moment D.left_since disk.old disk.new (IsLogOf [] []) }
    ensures cause { HasCause (D.failed disk.old) (D.failed disk.new) result }
{
    let _size = disk.size();
    commit(disk, 0, &HEAD, 15)?;
    Ok(())
}

/// Formats a disk whose head is closed. At `Ok` it holds an empty log, for good. A stop at any moment leaves one, too.
pub fn format<D: Disk>(disk: &mut D, alloc: Global) -> Result<(), LogFault>
    requires large { 4096 ≤ length (D.seen disk.old) }
    requires new { is_formatted (D.seen disk.old) ≡ false }
    requires durable { Only (D.seen disk.old) (D.may_leave disk.old) }
    ensures formatted { OnOk result (DiskSays (length (D.seen disk.old)) 0 (area_with 1 []) (D.seen disk.new)) }
    ensures durable { OnOk result (Only (D.seen disk.new) (D.may_leave disk.new)) }
    ensures read { IsLogOf [] [] (D.seen disk.new) }
    ensures any_moment { LeavesOnly D.moment D.left_since disk.old disk.new (IsLogOf [] []) }
    ensures not_full { IsErrOf result faults.Full → ⊥ }
    ensures undamaged { IsErrOf result faults.Damaged → ⊥ }
    ensures cause { MayFail (D.failed disk.old) (D.failed disk.new) result }
{
    close_areas(disk)?;
    write_area(disk, alloc, 0, 1, &[])?;
    write_head(disk)?;
    Ok(())
}
