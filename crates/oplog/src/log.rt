//! The operation log.

ghost use Rattle.std.specs.Prelude.{◌≡◌, ◌<◌, ◌≤◌, ◌+◌, ◌↔◌, ◌&&◌, ◌++◌, List, true, false, length, IfErr, IfOk, OnErr, OnOk, IsErrOf};
ghost use Rattle.std.specs.List.{AllByRecursion};
ghost use Rattle.disk.specs.Device.{Elapses, NoMore, Only};
ghost use Rattle.disk_redo.specs.GateMoments.{LeavesOnly, OnlyReads};
ghost use Rattle.log_codec.specs.Payloads.{is_item, IsWritable};
ghost use Rattle.log_records.specs.declared.record.Record.{Record};
ghost use Rattle.oplog.specs.Areas.{end_of};
ghost use Rattle.oplog.specs.Changes.{appended, IsBeforeOrAfter};
ghost use Rattle.oplog.specs.Checkpoints.{has_place, IsOldOrNew};
ghost use Rattle.oplog.specs.Faults.{stays_open};
ghost use Rattle.oplog.specs.Layout.{area_size, record_fits};
ghost use Rattle.oplog.specs.Logs.{IsDurable, MayFail, SameButDisk};
ghost use Rattle.oplog.specs.NewLogs.{IsLogOf};
ghost use Rattle.oplog.specs.Opening.{area_found, IsFound, IsOpening, WalksThrough};
ghost use Rattle.oplog.specs.Order.{is_checkpoint};
ghost use Rattle.oplog.specs.Reopening.{IsReopened};
ghost use Rattle.oplog.specs.Walks.{IsWalk, passed};
ghost use Rattle.oplog.specs.Writing.{area_with};
ghost use Rattle.oplog.specs.declared.fault.LogFault.TheVariants as faults;

use crate::checkpointing::checkpoint;
use crate::collecting::collect;
use crate::counted::CountedRecords;
use crate::fault::LogFault;
use crate::found::FoundArea;
use crate::opening::open_disk;
use crate::reading::read_again;
use crate::volume::LogVolume;
use crate::walk::Walk;
use disk::Disk;
use log_records::record::Record;
use std::alloc::Global;
use std::marker::Model;

/// The operation log on a disk: the items of its last checkpoint, and the records appended after it. In memory they are counted alone.
#[derive(Drop)]
pub struct Log<D: Disk> {
    volume: LogVolume<D>,
    items: CountedRecords,
    records: CountedRecords,
    // No change has failed on the disk since the log was opened.
    is_open: bool,
}

impl<D: Disk> Model for Log<D> {
    ghost use Rattle.oplog.specs.Logs.{IsCounted, LogState, log_counted};

    ghost Value = { LogState D };

    ghost view = { λ l. log_counted l.volume l.items l.records l.is_open };

    ghost invariant = { λ l. IsCounted D.seen D.may_leave l.volume l.items l.records l.is_open };
}

impl<D: Disk> Log<D> {
    /// Opens the log on a disk, with its last checkpoint's items and the records appended after it. A disk whose head is closed is formatted, and holds an empty log; a log of format 1 gets format 2.
    ///
    /// An error hands the disk back. `Damaged`: what stands on the disk is no log. `NoMemory`: an allocator refused what the call needs. `Device`: the disk failed in this call.
    pub fn open(alloc: Global, disk: D) -> Result<(Log<D>, Vec<Record>), (D, LogFault)>
        requires large { 4096 ≤ length (D.seen disk) }
        requires small { length (D.seen disk) ≤ 1073741824 }
        ensures open { IfOk result (λ x. x.0.is_open ≡ true) }
        ensures size { IfOk result (λ x. x.0.size ≡ length (D.seen disk)) }
        ensures same { IfOk result (λ x. IsLogOf x.0.area.items x.0.area.records (D.seen disk)) }
        ensures entries { IfOk result (λ x. x.1.items ≡ x.0.area.items ++ x.0.area.records) }
        // Damaged comes only where the disk holds no log.
        ensures undamaged { (items records : List Record) → IsLogOf items records (D.seen disk) → IfErr result (λ e. e.1 ≡ faults.Damaged → ⊥) }
        ensures not_full { IfErr result (λ e. e.1 ≡ faults.Full → ⊥) }
        // What is read once the call is over, also after an error: the same bytes, or an empty log where none stood there, or one of format 1 in either format.
        ensures read { IfOk result (λ x. IsReopened (D.seen disk) (D.seen x.0.disk)) }
        ensures read_of_error { IfErr result (λ e. IsReopened (D.seen disk) (D.seen e.0)) }
        // A stop at any moment of the call leaves what one before it might have left, or an empty log where none stood there, or one of format 1 in either format.
        ensures any_moment { IfOk result (λ x. LeavesOnly D.moment D.left_since disk x.0.disk (IsOpening (D.seen disk) (D.may_leave disk))) }
        ensures any_moment_of_error { IfErr result (λ e. LeavesOnly D.moment D.left_since disk e.0 (IsOpening (D.seen disk) (D.may_leave disk))) }
        ensures cause { IfErr result (λ e. e.1 ≡ faults.Device → D.failed disk < D.failed e.0) }
    {
        let (log, walk) = Log::open_with_walk(alloc, disk)?;
        match collect(walk, &log.items, &log.records, alloc) {
            Ok(entries) => Ok((log, entries)),
            Err(fault) => Err((log.into_disk(), fault)),
        }
    }

    /// The same with a walk through the items and records, where there are any, which has one in memory at a time.
    pub fn open_with_walk(
        alloc: Global,
        mut disk: D,
    ) -> Result<(Log<D>, Option<Walk>), (D, LogFault)>
        requires large { 4096 ≤ length (D.seen disk) }
        requires small { length (D.seen disk) ≤ 1073741824 }
        ensures open { IfOk result (λ x. x.0.is_open ≡ true) }
        ensures size { IfOk result (λ x. x.0.size ≡ length (D.seen disk)) }
        ensures same { IfOk result (λ x. IsLogOf x.0.area.items x.0.area.records (D.seen disk)) }
        ensures walk { IfOk result (λ x. WalksThrough (x.0.area.items ++ x.0.area.records) x.1) }
        ensures undamaged { (items records : List Record) → IsLogOf items records (D.seen disk) → IfErr result (λ e. e.1 ≡ faults.Damaged → ⊥) }
        ensures not_full { IfErr result (λ e. e.1 ≡ faults.Full → ⊥) }
        ensures read { IfOk result (λ x. IsReopened (D.seen disk) (D.seen x.0.disk)) }
        ensures read_of_error { IfErr result (λ e. IsReopened (D.seen disk) (D.seen e.0)) }
        ensures any_moment { IfOk result (λ x. LeavesOnly D.moment D.left_since disk x.0.disk (IsOpening (D.seen disk) (D.may_leave disk))) }
        ensures any_moment_of_error { IfErr result (λ e. LeavesOnly D.moment D.left_since disk e.0 (IsOpening (D.seen disk) (D.may_leave disk))) }
        ensures later { IfOk result (λ x. D.failed disk ≤ D.failed x.0.disk) }
        ensures cause { IfErr result (λ e. e.1 ≡ faults.Device → D.failed disk < D.failed e.0) }
    {
        match open_disk(&mut disk, alloc) {
            Ok(found) => Ok(Log::of_found(disk, found)),
            Err(fault) => Err((disk, fault)),
        }
    }

    // An open log, where this was found on its disk, and a walk through it.
    fn of_found(disk: D, found: FoundArea) -> (Log<D>, Option<Walk>)
        requires large { 4096 ≤ length (D.seen disk) }
        requires small { length (D.seen disk) ≤ 1073741824 }
        requires found { IsFound found (D.seen disk) }
        requires durable { Only (D.seen disk) (D.may_leave disk) }
        ensures open { result.0.is_open ≡ true }
        ensures disk { result.0.disk ≡ disk }
        ensures size { result.0.size ≡ length (D.seen disk) }
        ensures area { result.0.area ≡ area_found found }
        ensures walk { WalksThrough (found.items ++ found.records) result.1 }
    {
        let volume = LogVolume::new(disk, &found);
        let log = Log {
            volume,
            items: found.items,
            records: found.records,
            is_open: true,
        };
        (log, found.walk)
    }

    /// Whether the log is open. Once its disk has failed in a change it isn't.
    pub fn is_open(&self) -> bool
        ensures value { result ≡ self.now.is_open }
        // What an open log has is on its disk, for good.
        ensures durable { self.now.is_open ≡ true → IsDurable D.seen D.may_leave self.now }
    {
        self.is_open
    }

    /// How many items the last checkpoint has.
    pub fn item_count(&self) -> usize
        ensures { result ≡ length self.now.area.items }
    {
        self.items.len()
    }

    /// How many records were appended after it.
    pub fn record_count(&self) -> usize
        ensures { result ≡ length self.now.area.records }
    {
        self.records.len()
    }

    /// How many bytes of its area the log takes, up to the closed gate after the last record.
    pub fn used(&self) -> usize
        ensures end { result ≡ end_of self.now.area }
        ensures within { result < self.now.size }
    {
        self.volume.end
    }

    /// How often its disk has failed.
    pub fn failures(&self) -> u64
        ensures { result ≡ D.failed self.now.disk }
    {
        self.volume.disk.failures()
    }

    /// Whether the log is open and the record has room. Where an open log has none, `append` answers `Full`.
    pub fn fits(&self, logged: &Record) -> bool
        requires { IsWritable logged.now }
        ensures { result ≡ (self.now.is_open && record_fits (area_size self.now.size) self.now.area logged.now) }
    {
        self.is_open && self.volume.fits(logged)
    }

    /// Appends a record. At `Ok` it is on the disk for good.
    ///
    /// `Full`: it has no room. `NoMemory`: an allocator refused what the call needs. Both leave what the log says. `Device`: the disk failed in this call; the log is open no more, and its disk holds the records from before, with the new one or without.
    pub fn append(&mut self, alloc: Global, logged: &Record) -> Result<(), LogFault>
        requires writable { IsWritable logged.now }
        requires no_item { is_item logged.now ≡ false }
        requires open { self.old.is_open ≡ true }
        ensures ok { OnOk result (self.new.area ≡ appended self.old.area logged.now) }
        ensures durable { OnOk result (IsDurable D.seen D.may_leave self.new) }
        ensures err { OnErr result (self.new.area ≡ self.old.area) }
        ensures open { self.new.is_open ≡ stays_open result }
        ensures size { self.new.size ≡ self.old.size }
        ensures full { IsErrOf result faults.Full ↔ record_fits (area_size self.old.size) self.old.area logged.now ≡ false }
        ensures unchanged { IsErrOf result faults.Full → self.new ≡ self.old }
        ensures undamaged { IsErrOf result faults.Damaged → ⊥ }
        // What is read once the call is over, also after an error: the records from before it, with the new one or without.
        ensures read { IsBeforeOrAfter self.old.area logged.now (D.seen self.new.disk) }
        // A stop at any moment of the call leaves the records from before it, with the new one or without.
        ensures any_moment { LeavesOnly D.moment D.left_since self.old.disk self.new.disk (IsBeforeOrAfter self.old.area logged.now) }
        ensures cause { MayFail (D.failed self.old.disk) (D.failed self.new.disk) result }
    {
        match self.volume.append(alloc, logged) {
            Ok(()) => {
                self.records.push(logged);
                Ok(())
            }
            Err(fault) => {
                self.is_open = fault.leaves_open();
                Err(fault)
            }
        }
    }

    /// Writes a checkpoint: its items take the place of the log's items and records. At `Ok` they have, for good.
    ///
    /// `Full`: it has no room, or the areas' numbers have come to an end. `NoMemory`: an allocator refused what the call needs. Both leave what the log says. `Device`: the disk failed in this call; the log is open no more, and its disk holds the items and records from before, or the new items alone.
    pub fn checkpoint(&mut self, alloc: Global, items: &[Record]) -> Result<(), LogFault>
        requires writable { AllByRecursion IsWritable items.now }
        requires order { is_checkpoint items.now ≡ true }
        requires open { self.old.is_open ≡ true }
        ensures ok { OnOk result (self.new.area ≡ area_with (self.old.area.number + 1) items.now) }
        ensures durable { OnOk result (IsDurable D.seen D.may_leave self.new) }
        ensures err { OnErr result (self.new.area ≡ self.old.area) }
        ensures open { self.new.is_open ≡ stays_open result }
        ensures size { self.new.size ≡ self.old.size }
        ensures full { IsErrOf result faults.Full ↔ has_place self.old.size self.old.area items.now ≡ false }
        ensures unchanged { IsErrOf result faults.Full → self.new ≡ self.old }
        ensures undamaged { IsErrOf result faults.Damaged → ⊥ }
        // What is read once the call is over, also after an error: the items and records from before it, or the new items alone.
        ensures read { IsOldOrNew self.old.area items.now (D.seen self.new.disk) }
        // A stop at any moment of the call leaves the items and records from before it, or the new items alone.
        ensures any_moment { LeavesOnly D.moment D.left_since self.old.disk self.new.disk (IsOldOrNew self.old.area items.now) }
        ensures cause { MayFail (D.failed self.old.disk) (D.failed self.new.disk) result }
    {
        match checkpoint(&mut self.volume, alloc, items) {
            Ok(()) => {
                self.items = CountedRecords::of(items);
                self.records = CountedRecords::new();
                Ok(())
            }
            Err(fault) => {
                self.is_open = fault.leaves_open();
                Err(fault)
            }
        }
    }

    /// A walk through the items and records, which are read from the disk once more. An error changes nothing.
    pub fn walk(&mut self, alloc: Global) -> Result<Walk, LogFault>
        requires { self.old.is_open ≡ true }
        ensures walk { IfOk result (λ w. IsWalk (self.old.area.items ++ self.old.area.records) w) }
        ensures place { IfOk result (λ w. passed w ≡ 0) }
        ensures same { SameButDisk self.old self.new }
        ensures reads { OnlyReads D.seen D.may_leave D.moment D.left_since self.old.disk self.new.disk }
        ensures undamaged { IsErrOf result faults.Damaged → ⊥ }
        ensures not_full { IsErrOf result faults.Full → ⊥ }
        ensures cause { MayFail (D.failed self.old.disk) (D.failed self.new.disk) result }
    {
        read_again(&mut self.volume, alloc)
    }

    /// The disk as it is.
    pub fn into_disk(self) -> D
        ensures { result ≡ self.disk }
    {
        self.volume.into_disk()
    }

    /// Lets that many calls of the disk pass and fails each later one, where the disk can be told to fail. Changes no byte.
    pub fn arm(&mut self, calls: u64)
        ensures same { SameButDisk self.old self.new }
        ensures seen { D.seen self.new.disk ≡ D.seen self.old.disk }
        ensures crash { NoMore (D.may_leave self.old.disk) (D.may_leave self.new.disk) }
        ensures time { Elapses (D.moment self.old.disk) (D.moment self.new.disk) (D.left_since self.old.disk) (D.left_since self.new.disk) (D.may_leave self.new.disk) }
        ensures failed { D.failed self.new.disk ≡ D.failed self.old.disk }
    {
        self.volume.disk.arm(calls);
    }
}
