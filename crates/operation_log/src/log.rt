//! What every log of the master promises.

ghost use Rattle.std.specs.Prelude.{◌≡◌, ◌<◌, ◌^◌, ◌↔◌, ℕ, Bool, List, [], ◌∷◌, ◌++◌, true, false, length, slice_get, IfOk, OnOk, OnErr, IsErrOf};
ghost use Rattle.log_records.specs.declared.record.Record.{Record};
ghost use Rattle.log_codec.specs.Payloads.{IsWritable};
ghost use Rattle.protocol.specs.Logged.{LogDisk, LogChange, AppendRecord, WriteCheckpoint, log_changed};
ghost use Rattle.protocol.specs.LogSizes.{used_size, record_fits, checkpoint_fits};
ghost use Rattle.operation_log.specs.declared.fault.OperationLogFault.TheVariants.{Full, Unwritable};
ghost use Rattle.operation_log.specs.Faults.{MayFail, StaysOpen};
ghost use Rattle.operation_log.specs.Logs.{MayBeUnderWay};

use crate::fault::OperationLogFault;
use log_records::record::Record;

/// The master's operation log: the items of the last checkpoint, and the records after it.
///
/// A call that fails on the way may leave its change under way: only an opening decides whether it was made. A checkpoint is
/// written item by item beside the log that stands; the log changes at its end alone.
pub trait OperationLog {
    /// The last checkpoint's items, and the records after it.
    ghost disk: { Self → LogDisk };

    /// The changes that were begun by a call that failed, and aren't decided.
    ghost under_way: { Self → List LogChange };

    /// The items so far of the checkpoint that is being written.
    ghost writing: { Self → List Record };

    /// The bytes of the log's disk.
    ghost log_bytes: { Self → ℕ };

    /// It has been opened, and no change has failed since. One that isn't open answers `Device` to each call that needs its disk, until it is opened again.
    ghost is_open: { Self → Bool };

    /// How often its disk has failed since it began.
    ghost failed: { Self → ℕ };

    /// The bytes of an area that the log takes.
    fn used(&self) -> u64
        ensures size { result ≡ used_size (disk self.now).items (disk self.now).records }
        ensures small { result < 2 ^ 63 };

    /// Whether there is room for a record.
    fn fits(&self, entry: &Record) -> bool
        ensures { result ≡ record_fits (log_bytes self.now) (disk self.now).items (disk self.now).records entry.now };

    /// How often its disk has failed since it began.
    fn failures(&self) -> u64
        ensures { result ≡ failed self.now };

    /// Adds a record, so that each later stop leaves it. Nothing has changed at Full, which comes exactly where it doesn't fit, and at
    /// Unwritable, which comes exactly where it would fit and the format has no bytes for it. After another error it may be under way.
    fn append(&mut self, entry: &Record) -> Result<(), OperationLogFault>
        requires decided { under_way self.old ≡ [] }
        ensures ok { OnOk result (disk self.new ≡ log_changed (disk self.old) (AppendRecord entry.now)) }
        ensures done { OnOk result (under_way self.new ≡ []) }
        ensures err { OnErr result (disk self.new ≡ disk self.old) }
        ensures begun { OnErr result (MayBeUnderWay (AppendRecord entry.now) (under_way self.new)) }
        ensures full { IsErrOf result Full ↔ record_fits (log_bytes self.old) (disk self.old).items (disk self.old).records entry.now ≡ false }
        ensures unwritable { IsErrOf result Unwritable ↔ (record_fits (log_bytes self.old) (disk self.old).items (disk self.old).records entry.now ≡ true) × (IsWritable entry.now → ⊥) }
        ensures full_changes_nothing { IsErrOf result Full → under_way self.new ≡ [] }
        ensures unwritable_changes_nothing { IsErrOf result Unwritable → under_way self.new ≡ [] }
        ensures size { log_bytes self.new ≡ log_bytes self.old }
        ensures open { StaysOpen (is_open self.old) (is_open self.new) result }
        ensures cause { MayFail (is_open self.old) (failed self.old) (failed self.new) result };

    /// Begins to write a checkpoint; what was written of another one is forgotten. The log stays as it is.
    fn begin_checkpoint(&mut self) -> Result<(), OperationLogFault>
        requires decided { under_way self.old ≡ [] }
        ensures ok { OnOk result (writing self.new ≡ []) }
        ensures disk { disk self.new ≡ disk self.old }
        ensures under_way { under_way self.new ≡ [] }
        ensures size { log_bytes self.new ≡ log_bytes self.old }
        ensures open { StaysOpen (is_open self.old) (is_open self.new) result }
        ensures cause { MayFail (is_open self.old) (failed self.old) (failed self.new) result };

    /// Adds an item to the checkpoint that is being written. The log stays as it is. Full comes exactly where the items don't fit
    /// with this one; Unwritable exactly where they do and the format has no bytes for it.
    fn add_item(&mut self, item: &Record) -> Result<(), OperationLogFault>
        requires decided { under_way self.old ≡ [] }
        ensures ok { OnOk result (writing self.new ≡ writing self.old ++ item.now ∷ []) }
        ensures disk { disk self.new ≡ disk self.old }
        ensures under_way { under_way self.new ≡ [] }
        ensures full { IsErrOf result Full ↔ checkpoint_fits (log_bytes self.old) (writing self.old ++ item.now ∷ []) ≡ false }
        ensures unwritable { IsErrOf result Unwritable ↔ (checkpoint_fits (log_bytes self.old) (writing self.old ++ item.now ∷ []) ≡ true) × (IsWritable item.now → ⊥) }
        ensures size { log_bytes self.new ≡ log_bytes self.old }
        ensures open { StaysOpen (is_open self.old) (is_open self.new) result }
        ensures cause { MayFail (is_open self.old) (failed self.old) (failed self.new) result };

    /// Ends the checkpoint: its items take the place of the log's items and records. After an error it may be under way.
    fn end_checkpoint(&mut self) -> Result<(), OperationLogFault>
        requires decided { under_way self.old ≡ [] }
        requires fits { checkpoint_fits (log_bytes self.old) (writing self.old) ≡ true }
        ensures ok { OnOk result (disk self.new ≡ log_changed (disk self.old) (WriteCheckpoint (writing self.old))) }
        ensures done { OnOk result (under_way self.new ≡ []) }
        ensures err { OnErr result (disk self.new ≡ disk self.old) }
        ensures begun { OnErr result (MayBeUnderWay (WriteCheckpoint (writing self.old)) (under_way self.new)) }
        ensures size { log_bytes self.new ≡ log_bytes self.old }
        ensures open { StaysOpen (is_open self.old) (is_open self.new) result }
        ensures cause { MayFail (is_open self.old) (failed self.old) (failed self.new) result };

    /// How many items and records there are.
    fn len(&self) -> u64
        requires decided { under_way self.now ≡ [] }
        ensures { result ≡ length ((disk self.now).items ++ (disk self.now).records) };

    /// The item or record at a place, the items first; None behind the last one. Reading them in order goes over the log once.
    fn entry(&mut self, place: u64) -> Result<Option<Record>, OperationLogFault>
        requires decided { under_way self.old ≡ [] }
        ensures value { IfOk result (λ e. e ≡ slice_get ((disk self.old).items ++ (disk self.old).records) place) }
        ensures disk { disk self.new ≡ disk self.old }
        ensures under_way { under_way self.new ≡ [] }
        ensures size { log_bytes self.new ≡ log_bytes self.old }
        ensures open { StaysOpen (is_open self.old) (is_open self.new) result }
        ensures cause { MayFail (is_open self.old) (failed self.old) (failed self.new) result };
}
