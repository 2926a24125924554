//! Calls of a log on a disk of 4,096 bytes, each of which opens it.

use disk::{Disk, MemDisk};
use gfs_types::ids::{ClientId, FileId};
use gfs_types::lists::Text;
use gfs_types::no_memory::NoMemory;
use gfs_types::shape::Shape;
use gfs_types::torn::Torn;
use log_codec::{is_item, is_writable};
use log_records::record::Record;
use oplog::{Log, LogFault};
use std::alloc::Global;

pub(crate) const SIZE: usize = 4_096;

/// What a stop may leave of what was under way.
pub(crate) const WAYS: [Torn; 5] = [
    Torn::Old,
    Torn::New,
    Torn::Byte(0),
    Torn::Byte(1),
    Torn::Byte(7),
];

/// What a call came to: how many items and records the log had when it was opened, and the fault.
#[derive(Clone, Copy)]
pub(crate) struct Ran {
    pub(crate) found: usize,
    pub(crate) fault: Option<LogFault>,
}

/// A Create by client 1, its call 1, of file 1, with chunks of 64 bytes and a goal of 2, and the path `/a`.
pub(crate) fn create(alloc: Global) -> Result<Record, NoMemory> {
    Ok(Record::Create {
        client: ClientId(1),
        call: 1,
        file: FileId(1),
        shape: Some(Shape { chunk: 64, goal: 2 }),
        path: Text::from_str("/a", alloc)?,
    })
}

/// Opens the log, and appends a record.
pub(crate) fn append<D: Disk + Drop>(disk: D, alloc: Global, record: &Record) -> (D, Ran) {
    if disk.size() != SIZE || !is_writable(record) || is_item(record) {
        let fault = Some(LogFault::Damaged);
        return (disk, Ran { found: 0, fault });
    }
    match Log::open(alloc, disk) {
        Ok((mut log, entries)) => {
            let found = entries.len();
            drop(entries);
            let fault = log.append(alloc, record).err();
            (log.into_disk(), Ran { found, fault })
        }
        Err((disk, fault)) => {
            let fault = Some(fault);
            (disk, Ran { found: 0, fault })
        }
    }
}

/// The same of an epoch. What owns a record, a disk or a log calls `drop` once: a drop at the end of a scope is proved anew at each place.
pub(crate) fn append_epoch(disk: MemDisk, alloc: Global, epoch: u64) -> (MemDisk, Ran) {
    let record = Record::Epoch { epoch };
    let appended = append(disk, alloc, &record);
    drop(record);
    appended
}
