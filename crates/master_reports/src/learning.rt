//! What servers say that they hold.

ghost use Rattle.std.specs.Prelude.{◌≡◌, IfOk, OnOk};
ghost use Rattle.protocol.specs.Tables.{with_number};
ghost use Rattle.protocol.specs.MasterVersions.{is_complete, with_recorded, learns};
ghost use Rattle.master_plan.specs.Plans.{doing, known};

use crate::granting::grants_to;
use gfs_types::ids::{Handle, ServerId, Version};
use gfs_types::lists::ServerList;
use master_plan::plan::Plan;
use master_waiting::fault::PlanFault;
use master_waiting::numbers::{has_number, put_number, rising, same_numbers};
use master_waiting::waiting::VersionAttempt;
use operation_log::log::OperationLog;
use std::alloc::{Allocator, Global};

/// A server says that it holds this version.
pub fn learns<L: OperationLog, A: Allocator + Clone>(
    log: &L,
    plan: &mut Plan<A>,
    server: ServerId,
    handle: Handle,
    version: Version,
) -> Result<(), PlanFault>
    ensures { OnOk result (learns (doing (L.disk log.now) plan.old) server.0 handle.0 version.0 ≡ doing (L.disk log.now) plan.new) }
{
    if plan.state().table().chunk(handle).is_none() {
        return Ok(());
    }
    let alloc = plan.alloc();
    let Some(attempt) = plan.attempt(handle) else {
        return Ok(());
    };
    if attempt.version() != version || !has_number(attempt.servers().as_slice(), server.0) {
        return Ok(());
    }
    let attempt = recorded_by(attempt, server, alloc)?;
    with_recorded(log, plan, handle, &attempt)
}

// The attempt with one more server that recorded it.
fn recorded_by(
    attempt: &VersionAttempt,
    server: ServerId,
    alloc: Global,
) -> Result<VersionAttempt, PlanFault>
    ensures { IfOk result (λ a. a ≡ record attempt.now { recorded = with_number attempt.now.recorded server.0 }) }
{
    let mut recorded = attempt.recorded().copy(alloc)?.into_vec();
    put_number(&mut recorded, server.0)?;
    Ok(VersionAttempt::new(
        attempt.version(),
        attempt.servers().copy(alloc)?,
        ServerList::new(recorded),
        attempt.begun(),
    ))
}

// An equal attempt.
fn copied(attempt: &VersionAttempt, alloc: Global) -> Result<VersionAttempt, PlanFault>
    ensures { IfOk result (λ a. a ≡ attempt.now) }
{
    Ok(VersionAttempt::new(
        attempt.version(),
        attempt.servers().copy(alloc)?,
        attempt.recorded().copy(alloc)?,
        attempt.begun(),
    ))
}

// The attempt is kept as it now is, and granted where it is complete.
fn with_recorded<L: OperationLog, A: Allocator + Clone>(
    log: &L,
    plan: &mut Plan<A>,
    handle: Handle,
    attempt: &VersionAttempt,
) -> Result<(), PlanFault>
    ensures { OnOk result (with_recorded (doing (L.disk log.now) plan.old) handle.0 attempt.now ≡ doing (L.disk log.now) plan.new) }
{
    let alloc = plan.alloc();
    let complete = is_complete(plan, attempt);
    plan.put_attempt(handle, copied(attempt, alloc)?)?;
    if !complete {
        return Ok(());
    }
    let members = ServerList::new(rising(alloc, attempt.servers().as_slice())?);
    grants_to(log, plan, handle, attempt, members)
}

// A number is granted only when all of the set have recorded it, in time.
fn is_complete<A: Allocator + Clone>(plan: &Plan<A>, attempt: &VersionAttempt) -> bool
    ensures { result ≡ is_complete (known plan.now) attempt.now }
{
    same_numbers(attempt.servers().as_slice(), attempt.recorded().as_slice())
        && plan.now().0.saturating_sub(attempt.begun().0) < plan.config().attempt_ms
}
