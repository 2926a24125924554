//! Grants, each after its record.

ghost use Rattle.std.specs.Prelude.{◌≡◌, OnOk};
ghost use Rattle.protocol.specs.Logged.{LogDisk};
ghost use Rattle.protocol.specs.MasterVersions.{chunk_size_of, sends_grant, grants, grants_to};
ghost use Rattle.master_plan.specs.Plans.{doing};

use gfs_types::ids::{Handle, Moment, Node, ServerId, Version};
use gfs_types::lists::ServerList;
use log_records::record::Record;
use master_plan::logging::logs;
use master_plan::plan::Plan;
use master_waiting::fault::PlanFault;
use master_waiting::waiting::VersionAttempt;
use messages::message::Body;
use operation_log::log::OperationLog;
use std::alloc::Allocator;

#[tactic(auto, using(crate::proofs::Grants::to_none, crate::proofs::Grants::to_first))]
/// The number is granted to the first of these servers as the primary, with all of them as members; where there is none,
/// to none.
pub fn grants_to<L: OperationLog, A: Allocator + Clone>(
    log: &L,
    plan: &mut Plan<A>,
    handle: Handle,
    attempt: &VersionAttempt,
    members: ServerList,
) -> Result<(), PlanFault>
    ensures { OnOk result (grants_to (doing (L.disk log.now) plan.old) handle.0 attempt.now members ≡ doing (L.disk log.now) plan.new) }
{
    let Some(primary) = members.as_slice().first() else {
        return Ok(());
    };
    let primary = ServerId(*primary);
    grants(log, plan, handle, attempt, primary, members)
}

#[tactic(auto, using(crate::proofs::Grants::grants_by))]
// At the grant the version, the primary and the members are logged, and one Grant is sent.
fn grants<L: OperationLog, A: Allocator + Clone>(
    log: &L,
    plan: &mut Plan<A>,
    handle: Handle,
    attempt: &VersionAttempt,
    primary: ServerId,
    members: ServerList,
) -> Result<(), PlanFault>
    ensures { OnOk result (grants (doing (L.disk log.now) plan.old) handle.0 attempt.now primary.0 members ≡ doing (L.disk log.now) plan.new) }
{
    let version = attempt.version();
    let entry = Record::Grant {
        handle,
        version,
        primary,
        members: members.copy(plan.alloc())?,
    };
    if logs(log, plan, entry)? {
        sends_grant(plan, handle, version, primary, members)?;
    }
    Ok(())
}

// A grant that is on the disk is sent to the primary, with the size of the chunk; the lease ends a lease's time from now.
fn sends_grant<A: Allocator + Clone>(
    plan: &mut Plan<A>,
    handle: Handle,
    version: Version,
    primary: ServerId,
    members: ServerList,
) -> Result<(), PlanFault>
    ensures { OnOk result ((disk : LogDisk) → sends_grant (doing disk plan.old) handle.0 version.0 primary.0 members ≡ doing disk plan.new) }
{
    let Some(until) = plan.now().0.checked_add(plan.config().lease_ms) else {
        return Err(PlanFault::Limit);
    };
    let end = Moment(until);
    let chunk = chunk_size(plan, handle);
    plan.remove_attempt(handle);
    plan.end_lease_at(handle, end);
    let order = plan.next_order()?;
    let body = Body::Grant {
        order,
        handle,
        version,
        end,
        chunk,
        members,
    };
    plan.tell(Node::Server(primary), body)
}

// How many bytes the chunk has at most.
fn chunk_size<A: Allocator + Clone>(plan: &Plan<A>, handle: Handle) -> u32
    ensures { result ≡ chunk_size_of plan.now.logged.table handle.0 }
{
    match plan.state().table().chunk(handle) {
        Some(chunk) => chunk.shape().chunk,
        None => 0,
    }
}
