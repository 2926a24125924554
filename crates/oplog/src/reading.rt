//! Reading the log that stands on a disk.

ghost use Rattle.std.specs.Prelude.{◌≡◌, ◌<◌, ◌≤◌, ◌+◌, [], ◌∷◌, ◌++◌, ℕ, length, take, IfOk, OnOk, IsErrOf};
ghost use Rattle.disk.specs.Device.{HasCause, Only};
ghost use Rattle.disk_redo.specs.GateMoments.{OnlyReads};
ghost use Rattle.oplog.specs.Areas.{AreaSays, AreaState, end_of};
ghost use Rattle.oplog.specs.Disks.{area_of, front_of, head, newest, open_number, DiskSays};
ghost use Rattle.oplog.specs.Walks.{IsWalk, passed};
ghost use Rattle.log_codec.specs.declared.fault.DecodeFault.TheVariants as damaged;
ghost use Rattle.oplog.specs.Logs.{IsOpen, MayFail};
ghost use Rattle.oplog.specs.declared.fault.LogFault.TheVariants as faults;
ghost use Rattle.oplog.specs.Formats.{upgraded};
ghost use Rattle.oplog.specs.Opening.{area_found, IsFound, WalksThrough};

use crate::area::read_area;
use crate::disk_reading::{newest, open_number, read_range};
use crate::fault::LogFault;
use crate::found::FoundArea;
use crate::layout::{area_at, area_size};
use crate::volume::LogVolume;
use crate::walk::Walk;
use disk::{Disk, DiskFault};
use log_codec::DecodeFault;
use std::alloc::Global;

// Begins a call, and makes all durable.
fn settle<D: Disk>(disk: &mut D) -> Result<(), DiskFault>
    ensures durable { OnOk result (Only (D.seen disk.new) (D.may_leave disk.new)) }
    ensures reads { OnlyReads D.seen D.may_leave D.moment D.left_since disk.old disk.new }
    ensures cause { HasCause (D.failed disk.old) (D.failed disk.new) result }
{
    disk.forget_past();
    disk.sync()
}

/// The head's 16 bytes, once all is durable.
pub fn read_head<D: Disk>(disk: &mut D, alloc: Global) -> Result<Vec<u8>, DiskFault>
    requires { 4096 ≤ length (D.seen disk.old) }
    ensures bytes { IfOk result (λ v. v.items ≡ take 16 (D.seen disk.old)) }
    ensures durable { OnOk result (Only (D.seen disk.new) (D.may_leave disk.new)) }
    ensures reads { OnlyReads D.seen D.may_leave D.moment D.left_since disk.old disk.new }
    ensures cause { HasCause (D.failed disk.old) (D.failed disk.new) result }
{
    settle(disk)?;
    read_range(disk, alloc, 0, 16)
}

// The number of the first area (0) or the second one (1), where it is open.
fn read_number<D: Disk>(disk: &mut D, alloc: Global, which: usize) -> Result<Option<u64>, DiskFault>
    requires large { 4096 ≤ length (D.seen disk.old) }
    requires which { which < 2 }
    ensures number { IfOk result (λ n. n ≡ open_number (front_of (length (D.seen disk.old)) which (D.seen disk.old))) }
    ensures reads { OnlyReads D.seen D.may_leave D.moment D.left_since disk.old disk.new }
    ensures cause { HasCause (D.failed disk.old) (D.failed disk.new) result }
{
    let place = area_at(disk.size(), which);
    let front = read_range(disk, alloc, place, 9)?;
    Ok(open_number(&front))
}

// Which area is current.
fn find_current<D: Disk>(disk: &mut D, alloc: Global) -> Result<Option<usize>, DiskFault>
    requires { 4096 ≤ length (D.seen disk.old) }
    ensures current { IfOk result (λ w. w ≡ newest (open_number (front_of (length (D.seen disk.old)) 0 (D.seen disk.old))) (open_number (front_of (length (D.seen disk.old)) 1 (D.seen disk.old)))) }
    ensures reads { OnlyReads D.seen D.may_leave D.moment D.left_since disk.old disk.new }
    ensures cause { HasCause (D.failed disk.old) (D.failed disk.new) result }
{
    let first = read_number(disk, alloc, 0)?;
    let second = read_number(disk, alloc, 1)?;
    Ok(newest(first, second))
}

// What an area with these bytes says.
fn found_in(which: usize, bytes: Vec<u8>, alloc: Global) -> Result<FoundArea, DecodeFault>
    ensures which { IfOk result (λ x. x.which ≡ which) }
    ensures says { IfOk result (λ x. AreaSays (area_found x) bytes.items) }
    ensures end { IfOk result (λ x. x.end ≡ end_of (area_found x)) }
    ensures walk { IfOk result (λ x. WalksThrough (x.items ++ x.records) x.walk) }
    ensures undamaged { (area : AreaState) → AreaSays area bytes.items → IsErrOf result damaged.Damaged → ⊥ }
{
    let area = read_area(alloc, &bytes)?;
    let walk = Walk::begin(bytes)?;
    let (number, end) = (area.number(), area.end());
    let (items, records) = area.into_parts();
    Ok(FoundArea {
        which,
        number,
        end,
        items,
        records,
        walk: Some(walk),
    })
}

// What an area says.
fn read_current<D: Disk>(disk: &mut D, alloc: Global, which: usize) -> Result<FoundArea, LogFault>
    requires large { 4096 ≤ length (D.seen disk.old) }
    requires which { which < 2 }
    ensures which { IfOk result (λ x. x.which ≡ which) }
    ensures says { IfOk result (λ x. AreaSays (area_found x) (area_of (length (D.seen disk.old)) which (D.seen disk.old))) }
    ensures end { IfOk result (λ x. x.end ≡ end_of (area_found x)) }
    ensures walk { IfOk result (λ x. WalksThrough (x.items ++ x.records) x.walk) }
    ensures undamaged { (area : AreaState) → AreaSays area (area_of (length (D.seen disk.old)) which (D.seen disk.old)) → IsErrOf result faults.Damaged → ⊥ }
    ensures not_full { IsErrOf result faults.Full → ⊥ }
    ensures reads { OnlyReads D.seen D.may_leave D.moment D.left_since disk.old disk.new }
    ensures cause { MayFail (D.failed disk.old) (D.failed disk.new) result }
{
    let size = disk.size();
    let bytes = read_range(disk, alloc, area_at(size, which), area_size(size))?;
    match found_in(which, bytes, alloc) {
        Ok(found) => Ok(found),
        Err(DecodeFault::Damaged) => Err(LogFault::Damaged),
        Err(DecodeFault::NoMemory) => Err(LogFault::NoMemory),
    }
}

/// What a disk with an open head says, or of format 1 would say in format 2.
pub fn read_log<D: Disk>(disk: &mut D, alloc: Global) -> Result<FoundArea, LogFault>
    requires large { 4096 ≤ length (D.seen disk.old) }
    requires headed { take 16 (upgraded (D.seen disk.old)) ≡ head ++ 1 ∷ [] }
    ensures found { IfOk result (λ x. IsFound x (upgraded (D.seen disk.old))) }
    ensures undamaged { (which : ℕ) (area : AreaState) → DiskSays (length (D.seen disk.old)) which area (upgraded (D.seen disk.old)) → IsErrOf result faults.Damaged → ⊥ }
    ensures not_full { IsErrOf result faults.Full → ⊥ }
    ensures reads { OnlyReads D.seen D.may_leave D.moment D.left_since disk.old disk.new }
    ensures cause { MayFail (D.failed disk.old) (D.failed disk.new) result }
{
    let current = find_current(disk, alloc)?;
    let Some(which) = current else {
        return Err(LogFault::Damaged);
    };
    read_current(disk, alloc, which)
}

/// A walk through the entries of an open volume, whose current area is read once more.
pub fn read_again<D: Disk>(volume: &mut LogVolume<D>, alloc: Global) -> Result<Walk, LogFault>
    requires { (area : AreaState) × IsOpen D.seen D.may_leave volume.old area }
    ensures walk { (area : AreaState) → IsOpen D.seen D.may_leave volume.old area → IfOk result (λ w. IsWalk (area.items ++ area.records) w) }
    ensures place { IfOk result (λ w. passed w ≡ 0) }
    ensures open { (area : AreaState) → IsOpen D.seen D.may_leave volume.old area → IsOpen D.seen D.may_leave volume.new area }
    ensures undamaged { IsErrOf result faults.Damaged → ⊥ }
    ensures not_full { IsErrOf result faults.Full → ⊥ }
    ensures size { volume.new.size ≡ volume.old.size }
    ensures number { volume.new.number ≡ volume.old.number }
    ensures reads { OnlyReads D.seen D.may_leave D.moment D.left_since volume.old.disk volume.new.disk }
    ensures cause { MayFail (D.failed volume.old.disk) (D.failed volume.new.disk) result }
{
    let bytes = read_range(&mut volume.disk, alloc, volume.start, volume.room)?;
    match Walk::begin(bytes) {
        Ok(walk) => Ok(walk),
        Err(DecodeFault::Damaged) => Err(LogFault::Damaged),
        Err(DecodeFault::NoMemory) => Err(LogFault::NoMemory),
    }
}
