//! A log's place on its disk.

ghost use Rattle.std.specs.Prelude.{◌≡◌, ◌<◌, ◌≤◌, ◌+◌, ◌⊎◌, ◌↔◌, ◌++◌, ◌∷◌, [], true, false, length, IfOk, OnErr, OnOk, IsErrOf};
ghost use Rattle.disk.specs.Device.{HasCause, Only};
ghost use Rattle.disk_redo.specs.Gates.{committed, IsCommitting, IsUncommitted};
ghost use Rattle.disk_redo.specs.GateMoments.{LeavesOnly};
ghost use Rattle.disk.specs.declared.device.DiskFault.TheVariants as disk_faults;
ghost use Rattle.log_codec.specs.Fields.{IsIndex};
ghost use Rattle.log_codec.specs.Payloads.{is_item, payload, IsWritable};
ghost use Rattle.oplog.specs.Areas.{AreaState};
ghost use Rattle.oplog.specs.Entries.{entry, IsEntry};
ghost use Rattle.oplog.specs.Layout.{area_size, record_fits};
ghost use Rattle.oplog.specs.Changes.{appended, IsBeforeOrAfter};
ghost use Rattle.oplog.specs.Logs.{IsOpen, MayFail};
ghost use Rattle.oplog.specs.Opening.{area_found, IsFound};
ghost use Rattle.oplog.specs.declared.fault.LogFault.TheVariants as faults;

use crate::entry_writing::put_entry;
use crate::fault::LogFault;
use crate::found::FoundArea;
use crate::layout::{area_at, area_size};
use disk::{Disk, DiskFault};
use disk_redo::gate::commit;
use gfs_types::no_memory::NoMemory;
use log_codec::encoded_len;
use log_records::record::Record;
use std::alloc::Global;

/// A disk with a log on it: which area is current, and where in it the records end.
#[derive(Drop)]
pub struct LogVolume<D: Disk> {
    pub disk: D,
    pub size: usize,
    pub which: usize,
    pub start: usize,
    pub room: usize,
    pub number: u64,
    pub end: usize,
}

// An entry and the closed gate after it, for which memory is taken once.
fn record_bytes(alloc: Global, logged: &Record) -> Result<Vec<u8>, NoMemory>
    requires writable { IsWritable logged.now }
    requires short { IsIndex (length (payload logged.now)) }
    ensures bytes { IfOk result (λ v. v.items ≡ entry logged.now ++ 0 ∷ []) }
    ensures stands { OnOk result (IsEntry logged.now) }
{
    let mut bytes = Vec::with_capacity(alloc, encoded_len(logged) + 5)?;
    put_entry(&mut bytes, logged)?;
    bytes.push(0)?;
    Ok(bytes)
}

// Behind a closed gate: the bytes, and then the gate is opened.
fn write_behind<D: Disk>(disk: &mut D, gate: usize, bytes: &[u8]) -> Result<(), DiskFault>
    requires durable { Only (D.seen disk.old) (D.may_leave disk.old) }
    requires room { gate + 1 + length bytes.now ≤ length (D.seen disk.old) }
    ensures committed { OnOk result (D.seen disk.new ≡ committed (D.seen disk.old) (gate + 1) bytes.now gate) }
    ensures durable { OnOk result (Only (D.seen disk.new) (D.may_leave disk.new)) }
    ensures refused { IsErrOf result disk_faults.NoMemory → IsUncommitted (D.seen disk.old) (gate + 1) bytes.now (D.seen disk.new) × Only (D.seen disk.new) (D.may_leave disk.new) }
    ensures read { IsCommitting (D.seen disk.old) (gate + 1) bytes.now gate (D.seen disk.new) }
    ensures any_moment { LeavesOnly D.moment D.left_since disk.old disk.new (IsCommitting (D.seen disk.old) (gate + 1) bytes.now gate) }
    ensures cause { HasCause (D.failed disk.old) (D.failed disk.new) result }
{
    let _size = disk.size();
    disk.forget_past();
    commit(disk, gate + 1, bytes, gate)
}

impl<D: Disk> LogVolume<D> {
    /// The volume on a disk, with what was found there.
    pub fn new(disk: D, found: &FoundArea) -> LogVolume<D>
        requires large { 4096 ≤ length (D.seen disk) }
        requires small { length (D.seen disk) ≤ 1073741824 }
        requires found { IsFound found.now (D.seen disk) }
        requires durable { Only (D.seen disk) (D.may_leave disk) }
        ensures open { IsOpen D.seen D.may_leave result (area_found found.now) }
        ensures disk { result.disk ≡ disk }
        ensures size { result.size ≡ length (D.seen disk) }
        ensures number { result.number ≡ found.now.number }
    {
        let mut volume = LogVolume {
            disk,
            size: 0,
            which: 0,
            start: 0,
            room: 0,
            number: 0,
            end: 0,
        };
        volume.place(found);
        volume
    }

    /// Goes on with what was found on the disk.
    pub fn place(&mut self, found: &FoundArea)
        requires large { 4096 ≤ length (D.seen self.old.disk) }
        requires small { length (D.seen self.old.disk) ≤ 1073741824 }
        requires found { IsFound found.now (D.seen self.old.disk) }
        requires durable { Only (D.seen self.old.disk) (D.may_leave self.old.disk) }
        ensures open { IsOpen D.seen D.may_leave self.new (area_found found.now) }
        ensures disk { self.new.disk ≡ self.old.disk }
        ensures size { self.new.size ≡ length (D.seen self.old.disk) }
        ensures number { self.new.number ≡ found.now.number }
    {
        let size = self.disk.size();
        self.size = size;
        self.which = found.which;
        self.start = area_at(size, found.which);
        self.room = area_size(size);
        self.number = found.number;
        self.end = found.end;
    }

    /// Whether the record has room. Where it has none, `append` answers `Full`.
    pub fn fits(&self, logged: &Record) -> bool
        requires { IsWritable logged.now }
        ensures { (area : AreaState) → IsOpen D.seen D.may_leave self.now area → result ≡ record_fits (area_size self.now.size) area logged.now }
    {
        let left = self.room.saturating_sub(self.end);
        left >= 6 && encoded_len(logged) <= left - 6
    }

    /// Appends a record. At `Ok` it is on the disk for good.
    ///
    /// `Full`: it has no room. `NoMemory`: an allocator refused what the call needs. Both leave what the volume says. `Device`: the disk failed in this call; the volume is open no more, and its disk holds the records from before, with the new one or without.
    pub fn append(&mut self, alloc: Global, logged: &Record) -> Result<(), LogFault>
        requires writable { IsWritable logged.now }
        requires no_item { is_item logged.now ≡ false }
        requires is_open { (area : AreaState) × IsOpen D.seen D.may_leave self.old area }

        ensures ok { (area : AreaState) → IsOpen D.seen D.may_leave self.old area → OnOk result (IsOpen D.seen D.may_leave self.new (appended area logged.now)) }
        ensures full { (area : AreaState) → IsOpen D.seen D.may_leave self.old area → (IsErrOf result faults.Full ↔ (record_fits (area_size self.old.size) area logged.now ≡ false)) }
        ensures still_open { (area : AreaState) → IsOpen D.seen D.may_leave self.old area → IsErrOf result faults.NoMemory → IsOpen D.seen D.may_leave self.new area }
        ensures unchanged { IsErrOf result faults.Full → self.new ≡ self.old }
        ensures undamaged { IsErrOf result faults.Damaged → ⊥ }
        ensures size { self.new.size ≡ self.old.size }
        ensures number { self.new.number ≡ self.old.number }
        ensures end { OnErr result (self.new.end ≡ self.old.end) }
        ensures read { (area : AreaState) → IsOpen D.seen D.may_leave self.old area → IsBeforeOrAfter area logged.now (D.seen self.new.disk) }
        // A stop at any moment of the call leaves the records from before it, with the new one or without.
        ensures any_moment { (area : AreaState) → IsOpen D.seen D.may_leave self.old area → LeavesOnly D.moment D.left_since self.old.disk self.new.disk (IsBeforeOrAfter area logged.now) }
        ensures cause { MayFail (D.failed self.old.disk) (D.failed self.new.disk) result }
    {
        if !self.fits(logged) {
            return Err(LogFault::Full);
        }
        let bytes = record_bytes(alloc, logged)?;
        write_behind(&mut self.disk, self.start + self.end, &bytes)?;
        self.end += bytes.len();
        Ok(())
    }

    /// The disk as it is.
    pub fn into_disk(self) -> D
        ensures { result ≡ self.disk }
    {
        self.disk
    }
}
