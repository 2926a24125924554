//! Appends two records to a log on a disk in memory, stops the disk, and counts how many records its log has then.

ghost use Rattle.std.specs.Prelude.{◌≡◌, true, OnOk};
ghost use Rattle.oplog.specs.Logs.{IsDurable};

use disk::{Disk, FuseDisk, MemDisk};
use gfs_types::torn::Torn;
use log_codec::{is_item, is_writable};
use log_records::record::Record;
use oplog::{Log, LogFault};
use std::alloc::Global;

// The bytes of the disk.
const SIZE: usize = 4_096;

/// Appends the record of an epoch. At `Ok` it is on the disk, and each stop leaves it.
fn append_epoch<D: Disk>(log: &mut Log<D>, alloc: Global, epoch: u64) -> Result<(), LogFault>
    requires { log.old.is_open ≡ true }
    ensures open { OnOk result (log.new.is_open ≡ true) }
    ensures durable { OnOk result (IsDurable D.seen D.may_leave log.new) }
{
    let record = Record::Epoch { epoch };
    if !is_writable(&record) || is_item(&record) {
        return Err(LogFault::Damaged);
    }
    log.append(alloc, &record)
}

fn append_both<D: Disk>(log: &mut Log<D>, alloc: Global) -> Result<(), LogFault>
    requires { log.old.is_open ≡ true }
    ensures { OnOk result (IsDurable D.seen D.may_leave log.new) }
{
    append_epoch(log, alloc, 1)?;
    append_epoch(log, alloc, 2)
}

/// Opens the log on a disk, and appends both records. The disk comes back.
fn write<D: Disk + Drop>(disk: D, alloc: Global) -> (D, Result<(), LogFault>) {
    if disk.size() != SIZE {
        return (disk, Err(LogFault::Damaged));
    }
    match Log::open(alloc, disk) {
        Ok((mut log, entries)) => {
            drop(entries);
            let written = append_both(&mut log, alloc);
            (log.into_disk(), written)
        }
        Err((disk, fault)) => (disk, Err(fault)),
    }
}

/// How many items and records the log on a disk has.
fn count<D: Disk + Drop>(disk: D, alloc: Global) -> Result<usize, LogFault> {
    if disk.size() != SIZE {
        return Err(LogFault::Damaged);
    }
    match Log::open(alloc, disk) {
        Ok((_, entries)) => Ok(entries.len()),
        Err((_, fault)) => Err(fault),
    }
}

/// How many records the log has then.
pub fn records_after_a_stop(alloc: Global) -> anyhow::Result<usize> {
    let disk = FuseDisk::new(MemDisk::new(alloc, SIZE)?);
    let (disk, written) = write(disk, alloc);
    let found = count(disk.stop(Torn::Byte(7)), alloc)?;
    written?;
    Ok(found)
}
