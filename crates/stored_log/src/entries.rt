//! What stands at a place of a log that is open.

ghost use Rattle.std.specs.Prelude.{◌≡◌, ◌<◌, ◌≤◌, true, List, length, slice_get, IfOk};
ghost use Rattle.log_records.specs.declared.record.Record.{Record};
ghost use Rattle.oplog.specs.Logs.{SameButDisk};
ghost use Rattle.oplog.specs.Walks.{IsWalk, passed};
ghost use Rattle.operation_log.specs.Faults.{MayFail};
ghost use Rattle.operation_log.specs.declared.fault.OperationLogFault.TheVariants as faults;
ghost use Rattle.stored_log.specs.Faults.{fault_of};
ghost use Rattle.stored_log.specs.Kept.{all_entries, KeepsWalk};

use disk::Disk;
use log_codec::DecodeFault;
use log_records::record::Record;
use operation_log::fault::OperationLogFault;
use oplog::{Log, LogFault, Walk};
use std::alloc::Global;

pub(crate) fn fault_of(fault: LogFault) -> OperationLogFault
    ensures value { result ≡ fault_of fault }
    ensures not_full { result ≡ faults.Full → ⊥ }
    ensures not_unwritable { result ≡ faults.Unwritable → ⊥ }
{
    match fault {
        LogFault::Full | LogFault::Damaged => OperationLogFault::Damaged,
        LogFault::Device => OperationLogFault::Device,
        LogFault::NoMemory => OperationLogFault::NoMemory,
    }
}

fn fault_read(fault: DecodeFault) -> OperationLogFault
    ensures { result ≡ faults.Device → ⊥ }
{
    match fault {
        DecodeFault::Damaged => OperationLogFault::Damaged,
        DecodeFault::NoMemory => OperationLogFault::NoMemory,
    }
}

// A walk that has not passed the place: the one that is there, or a new one.
fn walk_before<D: Disk>(
    log: &mut Log<D>,
    alloc: Global,
    walk: Option<Walk>,
    place: u64,
) -> Result<Walk, OperationLogFault>
    requires open { log.old.is_open ≡ true }
    requires walk { KeepsWalk (all_entries log.old) walk }
    ensures walk { IfOk result (λ w. IsWalk (all_entries log.old) w) }
    ensures place { IfOk result (λ w. passed w ≤ place) }
    ensures same { SameButDisk log.old log.new }
    ensures cause { MayFail true (D.failed log.old.disk) (D.failed log.new.disk) result }
{
    if let Some(walk) = walk {
        if walk.place() <= place {
            return Ok(walk);
        }
    }
    match log.walk(alloc) {
        Ok(walk) => Ok(walk),
        Err(fault) => Err(fault_of(fault)),
    }
}

// The entry at a place, which the walk then has passed.
fn walk_to(walk: &mut Walk, place: u64, alloc: Global) -> Result<Option<Record>, DecodeFault>
    requires there { (all : List Record) × IsWalk all walk.old × (place < length all) }
    requires ahead { passed walk.old ≤ place }
    ensures entry { (all : List Record) → IsWalk all walk.old → IfOk result (λ o. o ≡ slice_get all place) }
    ensures walk { (all : List Record) → IsWalk all walk.old → IsWalk all walk.new }
{
    walk.go_to(place, alloc)?;
    walk.next(alloc)
}

/// The entry at a place, and the walk behind it.
pub(crate) fn entry_at<D: Disk>(
    log: &mut Log<D>,
    alloc: Global,
    walk: Option<Walk>,
    place: u64,
) -> Result<(Option<Record>, Walk), OperationLogFault>
    requires open { log.old.is_open ≡ true }
    requires walk { KeepsWalk (all_entries log.old) walk }
    requires there { place < length (all_entries log.old) }
    ensures entry { IfOk result (λ x. x.0 ≡ slice_get (all_entries log.old) place) }
    ensures walk { IfOk result (λ x. IsWalk (all_entries log.old) x.1) }
    ensures same { SameButDisk log.old log.new }
    ensures cause { MayFail true (D.failed log.old.disk) (D.failed log.new.disk) result }
{
    let mut walk = walk_before(log, alloc, walk, place)?;
    match walk_to(&mut walk, place, alloc) {
        Ok(entry) => Ok((entry, walk)),
        Err(fault) => Err(fault_read(fault)),
    }
}
