//! Files that were deleted long ago (section 4.4).

ghost use Rattle.std.specs.Prelude.{◌≡◌, map, OnOk};
ghost use Rattle.protocol.specs.MasterStep.{expires_old, expires_all};
ghost use Rattle.master_plan.specs.Plans.{doing};

use gfs_types::ids::FileId;
use log_records::record::Record;
use master_plan::logging::logs;
use master_plan::plan::Plan;
use master_waiting::fault::PlanFault;
use operation_log::log::OperationLog;
use stale_collect::expired::expired;
use std::alloc::Allocator;

/// The hidden files that were kept long enough are collected.
pub fn expires_old<L: OperationLog, A: Allocator + Clone>(
    log: &L,
    plan: &mut Plan<A>,
) -> Result<(), PlanFault>
    ensures { OnOk result (expires_old (doing (L.disk log.now) plan.old) ≡ doing (L.disk log.now) plan.new) }
{
    let names = plan.state().names();
    let files = expired(plan.alloc(), names, plan.now(), plan.config().keep_ms)?;
    expires_all(log, plan, &files)
}

fn expires_all<L: OperationLog, A: Allocator + Clone>(
    log: &L,
    plan: &mut Plan<A>,
    files: &[FileId],
) -> Result<(), PlanFault>
    ensures { OnOk result (expires_all (doing (L.disk log.now) plan.old) (map (λ file. file.0) files.now) ≡ doing (L.disk log.now) plan.new) }
{
    for file in files {
        logs(log, plan, Record::Expired { file: *file })?;
    }
    Ok(())
}
