//! The log over its disk.

ghost use Rattle.std.specs.Prelude.{◌≡◌, ◌<◌, ◌≤◌, ◌+◌, ◌^◌, ◌++◌, ◌∷◌, [], true, List, length, is_some, IfErr, IfOk, IfSome};
ghost use Rattle.disk_redo.specs.GateMoments.{LeavesOnly};
ghost use Rattle.log_records.specs.declared.record.Record.{Record};
ghost use Rattle.oplog.specs.NewLogs.{IsLogOf};
ghost use Rattle.oplog.specs.Opening.{IsOpening, WalksThrough};
ghost use Rattle.oplog.specs.Reopening.{IsReopened};
ghost use Rattle.oplog.specs.Walks.{IsWalk};
ghost use Rattle.protocol.specs.Logged.{new_log};
ghost use Rattle.protocol.specs.LogSizes.{checkpoint_fits, checkpoint_size};
ghost use Rattle.operation_log.specs.declared.fault.OperationLogFault.TheVariants as faults;
ghost use Rattle.stored_log.specs.Kept.{all_entries, HasDiskSize, IsDiskSize, KeepsWalk, LeavesDecided, Takes};

use crate::entries::{entry_at, fault_of};
use crate::standing::LogStanding;
use disk::Disk;
use log_codec::{is_item, is_writable};
use log_records::record::Record;
use operation_log::fault::OperationLogFault;
use operation_log::log::OperationLog;
use operation_log::sizes::used_with;
use oplog::{CountedRecords, Log, LogFault, Walk, is_checkpoint};
use std::alloc::Global;
use std::marker::Model;
use std::mem;

// An area's head.
const HEAD: u64 = 13;

// A gate and a length before a record.
const AROUND_RECORD: u64 = 5;

// A length before an item.
const AROUND_ITEM: u64 = 4;

/// The operation log on a disk. Its items and records are counted, and lie on the disk alone.
#[derive(Drop)]
pub struct DiskLog<D: Disk> {
    alloc: Global,
    log: Log<D>,
    log_bytes: u64,
    // while the log is read: its area's bytes
    walk: Option<Walk>,
    writing: Vec<Record>,
    // the bytes of an area that the log takes
    used: u64,
    // the bytes of the other area that the checkpoint that is being written takes
    written: u64,
    standing: LogStanding,
}

impl<D: Disk> Model for DiskLog<D> {
    ghost use Rattle.stored_log.specs.Kept.{all_entries, changes_of, DiskLogState, HasDiskSize, IsKept, IsWritten, is_standing_open, KeepsWalk, Takes};

    ghost Value = { DiskLogState };

    ghost view = { λ l. record {
      disk = record { items = l.log.area.items; records = l.log.area.records };
      under_way = changes_of l.standing;
      writing = l.writing.items;
      log_bytes = l.log_bytes;
      is_open = is_standing_open l.standing;
      failed = D.failed l.log.disk;
    } };

    ghost invariant = { λ l. IsKept D.may_leave l.log l.standing
        × Takes l.used l.log.area.items l.log.area.records
        × IsWritten l.written l.writing.items
        × HasDiskSize l.log l.log_bytes
        × KeepsWalk (all_entries l.log) l.walk };
}

// The walk, where there are more entries; else its bytes are given back.
fn if_more(walk: Walk, has_more: bool) -> Option<Walk>
    ensures { (all : List Record) → IsWalk all walk → KeepsWalk all result }
{
    if has_more { Some(walk) } else { None }
}

impl<D: Disk> DiskLog<D> {
    /// Opens the log that stands on a disk; a disk whose head is closed holds an empty one. An error hands the disk back, which then reads as
    /// it did, or as an empty log where none stood, or, of a log of format 1, with the same items and records in either format.
    pub fn open(alloc: Global, disk: D) -> Result<DiskLog<D>, (D, OperationLogFault)>
        requires { IsDiskSize (length (D.seen disk)) }
        ensures opened { IfOk result (λ l. IsLogOf l.disk.items l.disk.records (D.seen disk)) }
        ensures decided { IfOk result (λ l. l.under_way ≡ []) }
        ensures size { IfOk result (λ l. l.log_bytes ≡ length (D.seen disk)) }
        ensures read_of_error { IfErr result (λ e. IsReopened (D.seen disk) (D.seen e.0)) }
        ensures any_moment_of_error { IfErr result (λ e. LeavesOnly D.moment D.left_since disk e.0 (IsOpening (D.seen disk) (D.may_leave disk))) }
        ensures open { IfOk result (λ l. l.is_open ≡ true) }
        ensures later { IfOk result (λ l. D.failed disk ≤ l.failed) }
        // Damaged comes only where the disk holds no log.
        ensures undamaged { (items records : List Record) → IsLogOf items records (D.seen disk) → IfErr result (λ e. e.1 ≡ faults.Damaged → ⊥) }
        ensures cause { IfErr result (λ e. e.1 ≡ faults.Device → D.failed disk < D.failed e.0) }
    {
        let log_bytes = disk.size() as u64;
        match Log::open_with_walk(alloc, disk) {
            Ok((log, walk)) => Ok(DiskLog::of_opened(log, walk, log_bytes, alloc)),
            Err((disk, fault)) => Err((disk, fault_of(fault))),
        }
    }

    // A log that was opened.
    fn of_opened(log: Log<D>, walk: Option<Walk>, log_bytes: u64, alloc: Global) -> DiskLog<D>
        requires open { log.is_open ≡ true }
        requires walk { WalksThrough (all_entries log) walk }
        requires size { HasDiskSize log log_bytes }
        ensures disk { result.disk ≡ record { items = log.area.items; records = log.area.records } }
        ensures decided { result.under_way ≡ [] }
        ensures size { result.log_bytes ≡ log_bytes }
        ensures open { result.is_open ≡ true }
        ensures log { result.failed ≡ D.failed log.disk }
    {
        let used = log.used() as u64;
        DiskLog {
            alloc,
            log,
            log_bytes,
            walk,
            writing: Vec::new(alloc),
            used,
            written: HEAD,
            standing: LogStanding::Open,
        }
    }

    /// A new log on a disk that holds none, or an empty one. An error hands the disk back.
    pub fn new(alloc: Global, disk: D) -> Result<DiskLog<D>, (D, OperationLogFault)>
        requires { IsDiskSize (length (D.seen disk)) }
        ensures new { IfOk result (λ l. l.disk ≡ new_log) }
        ensures decided { IfOk result (λ l. l.under_way ≡ []) }
        ensures size { IfOk result (λ l. l.log_bytes ≡ length (D.seen disk)) }
        ensures open { IfOk result (λ l. l.is_open ≡ true) }
        ensures cause { IfErr result (λ e. e.1 ≡ faults.Device → D.failed disk < D.failed e.0) }
    {
        let opened = DiskLog::open(alloc, disk)?;
        if opened.log.item_count() > 0 || opened.log.record_count() > 0 {
            return Err((opened.into_disk(), OperationLogFault::Damaged));
        }
        Ok(opened)
    }

    /// The disk as it is. A stop leaves the log on it, with the change under way or without it.
    pub fn into_disk(self) -> D
        ensures left { LeavesDecided D.may_leave result self.disk self.under_way }
        ensures failed { D.failed result ≡ self.failed }
    {
        let _is_open = self.log.is_open();
        self.log.into_disk()
    }

    /// Lets so many calls of the disk pass and fails each later one, where the disk can be told to fail. Changes no byte.
    pub fn arm(&mut self, calls: u64)
        ensures { self.new ≡ self.old }
    {
        self.log.arm(calls);
    }

    // The bytes of the checkpoint that is being written once an item stands there too; None where they don't fit.
    fn written_with(&self, item: &Record) -> Option<u64>
        ensures room { is_some result ≡ checkpoint_fits self.now.log_bytes (self.now.writing ++ item.now ∷ []) }
        ensures written { IfSome result (λ n. n ≡ 13 + checkpoint_size (self.now.writing ++ item.now ∷ [])) }
        ensures small { IfSome result (λ n. n < 2 ^ 63) }
    {
        used_with(self.log_bytes, self.written, AROUND_ITEM, item)
    }
}

impl<D: Disk> OperationLog for DiskLog<D> {
    ghost disk = { λ l. l.disk };

    ghost under_way = { λ l. l.under_way };

    ghost writing = { λ l. l.writing };

    ghost log_bytes = { λ l. l.log_bytes };

    ghost is_open = { λ l. l.is_open };

    ghost failed = { λ l. l.failed };

    fn used(&self) -> u64 {
        self.used
    }

    fn fits(&self, entry: &Record) -> bool {
        used_with(self.log_bytes, self.used, AROUND_RECORD, entry).is_some()
    }

    fn failures(&self) -> u64 {
        self.log.failures()
    }

    // An item is no record: behind an open gate it would leave no log.
    fn append(&mut self, entry: &Record) -> Result<(), OperationLogFault> {
        let Some(used) = used_with(self.log_bytes, self.used, AROUND_RECORD, entry) else {
            return Err(OperationLogFault::Full);
        };
        if !is_writable(entry) {
            return Err(OperationLogFault::Unwritable);
        }
        if is_item(entry) {
            return Err(OperationLogFault::Damaged);
        }
        let LogStanding::Open = self.standing else {
            return Err(OperationLogFault::Device);
        };
        let record = entry.copy(self.alloc)?;
        self.walk = None;
        match self.log.append(self.alloc, &record) {
            Ok(()) => {
                drop(record);
                self.used = used;
                Ok(())
            }
            Err(fault) => match fault {
                LogFault::Device => {
                    self.standing = LogStanding::Appending(record);
                    Err(OperationLogFault::Device)
                }
                other => {
                    drop(record);
                    Err(fault_of(other))
                }
            },
        }
    }

    fn begin_checkpoint(&mut self) -> Result<(), OperationLogFault> {
        self.writing.clear();
        self.written = HEAD;
        Ok(())
    }

    fn add_item(&mut self, item: &Record) -> Result<(), OperationLogFault> {
        let Some(written) = self.written_with(item) else {
            return Err(OperationLogFault::Full);
        };
        if !is_writable(item) {
            return Err(OperationLogFault::Unwritable);
        }
        let record = item.copy(self.alloc)?;
        self.writing.push(record)?;
        self.written = written;
        Ok(())
    }

    // Items that aren't a checkpoint in its order would leave no log.
    fn end_checkpoint(&mut self) -> Result<(), OperationLogFault> {
        if !is_checkpoint(&self.writing) {
            return Err(OperationLogFault::Damaged);
        }
        let LogStanding::Open = self.standing else {
            return Err(OperationLogFault::Device);
        };
        let writing = mem::replace(&mut self.writing, Vec::new(self.alloc));
        let written = mem::replace(&mut self.written, HEAD);
        self.walk = None;
        match self.log.checkpoint(self.alloc, &writing) {
            Ok(()) => {
                self.used = written;
                Ok(())
            }
            Err(fault) => match fault {
                LogFault::Device => {
                    self.standing = LogStanding::Checkpointing(CountedRecords::of(&writing));
                    Err(OperationLogFault::Device)
                }
                LogFault::Full => Err(OperationLogFault::Full),
                other => Err(fault_of(other)),
            },
        }
    }

    #[tactic(auto, using(operation_log::proofs::Growth::count_within, operation_log::proofs::Growth::count_is))]
    fn len(&self) -> u64 {
        self.log.item_count() as u64 + self.log.record_count() as u64
    }

    fn entry(&mut self, place: u64) -> Result<Option<Record>, OperationLogFault> {
        let count = self.log.item_count() as u64 + self.log.record_count() as u64;
        if place >= count {
            return Ok(None);
        }
        let LogStanding::Open = self.standing else {
            return Err(OperationLogFault::Device);
        };
        let walk = self.walk.take();
        let (entry, walk) = entry_at(&mut self.log, self.alloc, walk, place)?;
        self.walk = if_more(walk, place + 1 < count);
        Ok(entry)
    }
}
