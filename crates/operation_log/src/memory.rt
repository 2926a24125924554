//! A log in memory, with the sizes of one on a disk.

ghost use Rattle.std.specs.Prelude.{◌≡◌, ◌+◌, ◌<◌, ◌^◌, [], ◌∷◌, ◌++◌, true, slice_get, is_some, IfSome};
ghost use Rattle.std.specs.Option.{option_copied};
ghost use Rattle.protocol.specs.LogSizes.{checkpoint_size, checkpoint_fits};
ghost use Rattle.operation_log.specs.Memory.{new_memory_log};

use crate::fault::OperationLogFault;
use crate::log::OperationLog;
use crate::sizes::used_with;
use log_codec::is_writable;
use log_records::record::Record;
use std::alloc::Global;
use std::marker::Model;
use std::mem;

// An area's head.
const HEAD: u64 = 13;

// A gate and a length before a record.
const AROUND_RECORD: u64 = 5;

// A length before an item.
const AROUND_ITEM: u64 = 4;

/// A log in memory. Only memory that is refused makes a call fail on its way, and then nothing has changed.
#[derive(Drop)]
pub struct MemoryLog {
    alloc: Global,
    log_bytes: u64,
    items: Vec<Record>,
    records: Vec<Record>,
    writing: Vec<Record>,
    // the bytes of an area that the log takes
    used: u64,
    // the bytes of the other area that the checkpoint that is being written takes
    written: u64,
}

impl Model for MemoryLog {
    ghost use Rattle.std.specs.Prelude.{◌≡◌, ◌+◌, ◌<◌, ◌^◌};
    ghost use Rattle.protocol.specs.LogSizes.{used_size, checkpoint_size};
    ghost use Rattle.operation_log.specs.Memory.{MemoryLogState};

    ghost Value = { MemoryLogState };

    ghost view = { λ l. record {
      disk = record { items = l.items.items; records = l.records.items };
      writing = l.writing.items;
      log_bytes = l.log_bytes;
    } };

    ghost invariant = { λ l. (l.used ≡ used_size l.items.items l.records.items)
        × (l.written ≡ 13 + checkpoint_size l.writing.items)
        × (l.used < 2 ^ 63)
        × (l.written < 2 ^ 63) };
}

impl MemoryLog {
    /// The log of a new cell: no item and no record. Takes no memory.
    pub fn new(alloc: Global, log_bytes: u64) -> MemoryLog
        ensures { result ≡ new_memory_log log_bytes }
    {
        MemoryLog {
            alloc,
            log_bytes,
            items: Vec::new(alloc),
            records: Vec::new(alloc),
            writing: Vec::new(alloc),
            used: HEAD,
            written: HEAD,
        }
    }

    // The bytes of the checkpoint that is being written once an item stands there too; None where they don't fit.
    fn written_with(&self, item: &Record) -> Option<u64>
        ensures room { is_some result ≡ checkpoint_fits self.now.log_bytes (self.now.writing ++ item.now ∷ []) }
        ensures written { IfSome result (λ n. n ≡ 13 + checkpoint_size (self.now.writing ++ item.now ∷ [])) }
        ensures small { IfSome result (λ n. n < 2 ^ 63) }
    {
        used_with(self.log_bytes, self.written, AROUND_ITEM, item)
    }
}

impl OperationLog for MemoryLog {
    ghost disk = { λ l. l.disk };

    ghost under_way = { λ _. [] };

    ghost writing = { λ l. l.writing };

    ghost log_bytes = { λ l. l.log_bytes };

    ghost is_open = { λ _. true };

    ghost failed = { λ _. 0 };

    fn used(&self) -> u64 {
        self.used
    }

    fn fits(&self, entry: &Record) -> bool {
        used_with(self.log_bytes, self.used, AROUND_RECORD, entry).is_some()
    }

    fn failures(&self) -> u64 {
        0
    }

    fn append(&mut self, entry: &Record) -> Result<(), OperationLogFault> {
        let Some(used) = used_with(self.log_bytes, self.used, AROUND_RECORD, entry) else {
            return Err(OperationLogFault::Full);
        };
        if !is_writable(entry) {
            return Err(OperationLogFault::Unwritable);
        }
        let record = entry.copy(self.alloc)?;
        self.records.push(record)?;
        self.used = used;
        Ok(())
    }

    fn begin_checkpoint(&mut self) -> Result<(), OperationLogFault> {
        self.writing.clear();
        self.written = HEAD;
        Ok(())
    }

    fn add_item(&mut self, item: &Record) -> Result<(), OperationLogFault> {
        let Some(written) = self.written_with(item) else {
            return Err(OperationLogFault::Full);
        };
        if !is_writable(item) {
            return Err(OperationLogFault::Unwritable);
        }
        let record = item.copy(self.alloc)?;
        self.writing.push(record)?;
        self.written = written;
        Ok(())
    }

    fn end_checkpoint(&mut self) -> Result<(), OperationLogFault> {
        self.items = mem::replace(&mut self.writing, Vec::new(self.alloc));
        self.records.clear();
        self.used = self.written;
        self.written = HEAD;
        Ok(())
    }

    #[tactic(auto, using(crate::proofs::Growth::count_within, crate::proofs::Growth::count_is))]
    fn len(&self) -> u64 {
        self.items.len() as u64 + self.records.len() as u64
    }

    fn entry(&mut self, place: u64) -> Result<Option<Record>, OperationLogFault> {
        match at(&self.items, &self.records, place) {
            Some(record) => Ok(Some(record.copy(self.alloc)?)),
            None => Ok(None),
        }
    }
}

#[tactic(auto, using(crate::proofs::Places::get_in_first, crate::proofs::Places::get_in_second))]
// The element at a place of two lists, one behind the other.
fn at<'a>(items: &'a [Record], records: &'a [Record], place: u64) -> Option<&'a Record>
    ensures { option_copied result ≡ slice_get (items.now ++ records.now) place }
{
    let place = place as usize;
    if place < items.len() {
        return items.get(place);
    }
    records.get(place - items.len())
}
