//! Logs that are opened over what a stop left of their disks.

ghost use Rattle.std.specs.Prelude.{◌≡◌, [], IfOk, IfSome};

use disk::{Disk, FuseDisk, StopPlan};
use std::alloc::Global;
use stored_log::disk_log::DiskLog;

pub(crate) type TestLog = DiskLog<FuseDisk<Global>>;

/// The disk stops, and a log is opened over what the stop left. An error hands the disk back, over which it may be tried again.
pub(crate) fn open_after(
    alloc: Global,
    disk: FuseDisk<Global>,
    stops: &mut StopPlan,
) -> Result<TestLog, FuseDisk<Global>>
    ensures { IfOk result (λ l. l.under_way ≡ []) }
{
    let disk = stops.restart(disk);
    let size = disk.size();
    if size < 4_096 || size > 1_073_741_824 {
        return Err(disk);
    }
    match DiskLog::open(alloc, disk) {
        Ok(log) => Ok(log),
        Err((disk, _fault)) => Err(disk),
    }
}

/// The same of a log, whose disk stops here and now; once more where that fails.
pub(crate) fn open_again(alloc: Global, log: TestLog) -> Option<TestLog>
    ensures { IfSome result (λ l. l.under_way ≡ []) }
{
    let mut stops = StopPlan::new();
    match open_after(alloc, log.into_disk(), &mut stops) {
        Ok(log) => Some(log),
        Err(disk) => open_after(alloc, disk, &mut stops).ok(),
    }
}
