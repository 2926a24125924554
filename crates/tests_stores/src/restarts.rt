//! The master's log, whose disk stops and begins again.

ghost use Rattle.std.specs.Prelude.{◌≡◌, [], IfSome};

use crate::log_calls::{SIZE, WAYS, create};
use crate::stopped_log::{TestLog, open_after};
use disk::{Disk, FuseDisk, MemDisk, StopPlan};
use gfs_types::torn::Torn;
use log_records::record::Record;
use operation_log::log::OperationLog;
use std::alloc::Global;
use std::test::Fail;
use stored_log::disk_log::DiskLog;

// An append takes 4 calls of the disk, and an opening 5.
const CALLS: u64 = 6;

// An append that stops. The log that is found then, and whether the append was answered so; none where it was done without a call of the disk.
fn stopped_within(
    alloc: Global,
    log: TestLog,
    record: &Record,
    calls: u64,
    torn: Torn,
) -> Option<(TestLog, bool)>
    requires { log.under_way ≡ [] }
    ensures { IfSome result (λ r. r.0.under_way ≡ []) }
{
    let mut log = log;
    log.arm(calls);
    let done = log.append(record).is_ok();
    if calls == 0 && done {
        drop(log);
        return None;
    }
    let mut stops = StopPlan::new();
    stops.tear(torn);
    match open_after(alloc, log.into_disk(), &mut stops) {
        Ok(log) => Some((log, done)),
        Err(disk) => {
            drop(disk);
            None
        }
    }
}

// How many entries the log has once an opening of it stopped, and it was opened again; none where an opening was done without a call of the disk, or the first
// entry isn't read, and read again behind itself.
fn found_later(alloc: Global, log: TestLog, calls: u64, torn: Torn) -> Option<u64> {
    let mut stops = StopPlan::new();
    stops.stop_after_restart(calls, torn);
    let disk = match open_after(alloc, log.into_disk(), &mut stops) {
        Ok(log) => {
            if calls == 0 {
                drop(log);
                return None;
            }
            log.into_disk()
        }
        Err(disk) => disk,
    };
    match open_after(alloc, disk, &mut stops) {
        Ok(mut log) => {
            let is_read = log.entry(0).is_ok() && log.entry(0).is_ok();
            let count = log.len();
            drop(log);
            if is_read { Some(count) } else { None }
        }
        Err(disk) => {
            drop(disk);
            None
        }
    }
}

// An append that stops, once more, and a stop within the opening after it. Whether each record is there or not, as the appends answered, and nothing passes where no call does.
fn is_kept(alloc: Global, record: &Record, calls: u64, torn: Torn) -> bool {
    let Some(log) = new_log(alloc) else {
        return false;
    };
    let Some((log, done)) = stopped_within(alloc, log, record, calls, torn) else {
        return false;
    };
    let mut log = log;
    let found = log.len();
    if found > 1 || (found == 0 && done) || log.append(record).is_err() {
        drop(log);
        return false;
    }
    found_later(alloc, log, calls, torn) == Some(found.saturating_add(1))
}

pub(crate) fn new_log(alloc: Global) -> Option<TestLog>
    ensures decided { IfSome result (λ l. l.under_way ≡ []) }
{
    let Ok(disk) = MemDisk::new(alloc, SIZE) else {
        return None;
    };
    let disk = FuseDisk::new(disk);
    if disk.size() != SIZE {
        drop(disk);
        return None;
    }
    DiskLog::new(alloc, disk).ok()
}

#[test]
fn a_stopped_append_is_there_or_it_is_not(rt: HostRuntime) -> Result<(), Fail> {
    let alloc = rt.alloc();
    let record = create(alloc)?;
    for calls in 0..CALLS {
        for torn in WAYS {
            assert!(rt; is_kept(alloc, &record, calls, torn), "call {calls}");
        }
    }
    drop(record);
    Ok(())
}
