//! What a server tells of one replica.

ghost use Rattle.std.specs.Prelude.{◌≡◌, OnOk};
ghost use Rattle.protocol.specs.Logged.{LogDisk};
ghost use Rattle.protocol.specs.MasterReports.{holds_now, takes_recorded, takes_cloned, takes_revoked};
ghost use Rattle.master_plan.specs.Plans.{doing};

use crate::learning::learns;
use gfs_types::ids::{Handle, Moment, ServerId, Version};
use master_plan::plan::Plan;
use master_waiting::fault::PlanFault;
use operation_log::log::OperationLog;
use std::alloc::Allocator;

/// A server holds this version.
pub fn holds_now<A: Allocator + Clone>(
    plan: &mut Plan<A>,
    server: ServerId,
    handle: Handle,
    version: Version,
) -> Result<(), PlanFault>
    ensures { OnOk result ((disk : LogDisk) → holds_now (doing disk plan.old) server.0 handle.0 version.0 ≡ doing disk plan.new) }
{
    plan.note_holder(server, handle, version)
}

/// A Recorded: the server holds this version, and the version number may be complete with it.
pub fn takes_recorded<L: OperationLog, A: Allocator + Clone>(
    log: &L,
    plan: &mut Plan<A>,
    server: ServerId,
    handle: Handle,
    version: Version,
) -> Result<(), PlanFault>
    ensures { OnOk result (takes_recorded (doing (L.disk log.now) plan.old) server.0 handle.0 version.0 ≡ doing (L.disk log.now) plan.new) }
{
    holds_now(plan, server, handle, version)?;
    learns(log, plan, server, handle, version)
}

/// A Cloned.
pub fn takes_cloned<A: Allocator + Clone>(
    plan: &mut Plan<A>,
    server: ServerId,
    handle: Handle,
    version: Version,
) -> Result<(), PlanFault>
    ensures { OnOk result ((disk : LogDisk) → takes_cloned (doing disk plan.old) server.0 handle.0 version.0 ≡ doing disk plan.new) }
{
    holds_now(plan, server, handle, version)
}

/// A Revoked of the last lease's primary ends it at the master. Takes no memory.
pub fn takes_revoked<A: Allocator + Clone>(
    plan: &mut Plan<A>,
    server: ServerId,
    handle: Handle,
    version: Version,
)
    ensures { (disk : LogDisk) → takes_revoked (doing disk plan.old) server.0 handle.0 version.0 ≡ doing disk plan.new }
{
    let Some(chunk) = plan.state().table().chunk(handle) else {
        return;
    };
    if chunk.granted() == version && chunk.primary() == server {
        plan.end_lease_at(handle, Moment(0));
    }
}
