//! All entries of a log, collected.

ghost use Rattle.std.specs.Prelude.{◌≡◌, ◌++◌, IfErr, IfOk};
ghost use Rattle.oplog.specs.Opening.{WalksThrough};
ghost use Rattle.oplog.specs.Walks.{IsWalk, passed};
ghost use Rattle.oplog.specs.declared.fault.LogFault.TheVariants as faults;

use crate::counted::CountedRecords;
use crate::fault::LogFault;
use crate::walk::Walk;
use log_records::record::Record;
use std::alloc::Global;

// The entries of a walk that has passed none, which are these items and records.
fn collect_walk(
    mut walk: Walk,
    items: &CountedRecords,
    records: &CountedRecords,
    alloc: Global,
) -> Result<Vec<Record>, LogFault>
    requires walk { IsWalk (items.now ++ records.now) walk }
    requires first { passed walk ≡ 0 }
    ensures all { IfOk result (λ v. v.items ≡ items.now ++ records.now) }
    ensures fault { IfErr result (λ e. e ≡ faults.NoMemory) }
{
    let mut entries = Vec::new(alloc);
    for number in 0..u64::MAX {
        let next = walk.next(alloc)?;
        let Some(entry) = next else {
            return Ok(entries);
        };
        entries.push(entry)?;
    }
    Ok(entries)
}

/// The entries of a log with these items and records, through which the walk goes.
pub fn collect(
    walk: Option<Walk>,
    items: &CountedRecords,
    records: &CountedRecords,
    alloc: Global,
) -> Result<Vec<Record>, LogFault>
    requires { WalksThrough (items.now ++ records.now) walk }
    ensures all { IfOk result (λ v. v.items ≡ items.now ++ records.now) }
    ensures fault { IfErr result (λ e. e ≡ faults.NoMemory) }
{
    match walk {
        Some(walk) => collect_walk(walk, items, records, alloc),
        None => Ok(Vec::new(alloc)),
    }
}
