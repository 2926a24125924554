//! The master's log, where an allocation is refused.

ghost use Rattle.std.specs.Prelude.{◌≡◌, [], IfSome, OnOk};

use crate::log_calls::create;
use crate::plan::counters;
use crate::restarts::new_log;
use crate::stopped_log::{TestLog, open_again};
use gfs_types::no_memory::NoMemory;
use log_records::record::Record;
use operation_log::fault::OperationLogFault;
use operation_log::log::OperationLog;
use std::alloc::Global;
use std::test::Fail;

// How often a record is appended.
const APPENDS: u64 = 3;

// An append. Where memory is refused the log is opened again, which has the record or not, and then it is appended.
fn grow(alloc: Global, log: TestLog, record: &Record) -> Option<TestLog>
    requires { log.under_way ≡ [] }
    ensures { IfSome result (λ l. l.under_way ≡ []) }
{
    let mut log = log;
    let before = log.len();
    if log.append(record).is_ok() {
        return Some(log);
    }
    let mut again = open_again(alloc, log)?;
    if again.len() == before && again.append(record).is_err() {
        drop(again);
        return None;
    }
    Some(again)
}

fn checkpoint<L: OperationLog>(log: &mut L, item: &Record) -> Result<(), OperationLogFault>
    requires { L.under_way log.old ≡ [] }
    ensures { OnOk result (L.under_way log.new ≡ []) }
{
    log.begin_checkpoint()?;
    log.add_item(item)?;
    log.end_checkpoint()
}

// A checkpoint of one item. Where memory is refused the log is opened again, and it is written once more.
fn shrink(alloc: Global, log: TestLog, item: &Record) -> Option<TestLog>
    requires { log.under_way ≡ [] }
    ensures { IfSome result (λ l. l.under_way ≡ []) }
{
    let mut log = log;
    if checkpoint(&mut log, item).is_ok() {
        return Some(log);
    }
    let mut again = open_again(alloc, log)?;
    if checkpoint(&mut again, item).is_err() {
        drop(again);
        return None;
    }
    Some(again)
}

// Appends, a checkpoint, an append and an opening: how many entries there are before the checkpoint, after it, and at the end.
fn go_on(alloc: Global, log: TestLog, record: &Record, item: &Record) -> Option<[u64; 3]>
    requires { log.under_way ≡ [] }
{
    let mut log = log;
    for number in 0..APPENDS {
        log = grow(alloc, log, record)?;
    }
    let before = log.len();
    let log = shrink(alloc, log, item)?;
    let after = log.len();
    let log = grow(alloc, log, record)?;
    let log = open_again(alloc, log)?;
    let last = log.len();
    drop(log);
    Some([before, after, last])
}

// The same of a new log, made once more where memory was refused.
fn counts(alloc: Global, record: &Record, item: &Record) -> Option<[u64; 3]> {
    if let Some(log) = new_log(alloc) {
        return go_on(alloc, log, record, item);
    }
    match new_log(alloc) {
        Some(log) => go_on(alloc, log, record, item),
        None => None,
    }
}

// A record, made once more where memory was refused.
fn create_again(alloc: Global) -> Result<Record, NoMemory> {
    match create(alloc) {
        Ok(record) => Ok(record),
        Err(_) => create(alloc),
    }
}

// `tools/campaigns/refused` refuses each allocation in turn.
#[test]
fn a_refused_allocation_leaves_the_log(rt: HostRuntime) -> Result<(), Fail> {
    let alloc = rt.alloc();
    let record = create_again(alloc)?;
    let item = counters(1);
    let counts = counts(alloc, &record, &item);
    drop(record);
    drop(item);
    assert!(rt; counts == Some([3, 1, 2]));
    Ok(())
}
