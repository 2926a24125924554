//! Copies of shared chunks, each ordered after its record.

ghost use Rattle.std.specs.Prelude.{◌≡◌, suc, nat_lt, map, IfOk, OnOk, IsTrue};
ghost use Rattle.protocol.specs.Logged.{LogDisk};
ghost use Rattle.protocol.specs.Master.{orders};
ghost use Rattle.protocol.specs.MasterVersions.{placement, copy_order, sends_copies, copy_targets, sends_copy_started, copies_to, begins_copy};
ghost use Rattle.master_plan.specs.Plans.{doing, known};
ghost use Rattle.master_chunks.specs.Askers.{asker_of};
ghost use Rattle.master_chunks.specs.Copying.{new_target};
ghost use Rattle.master_chunks.specs.Own.{IsOwn};
ghost use Rattle.snapshot.specs.CopyPlans.{handle_id, version_id};

use crate::asker::Asker;
use crate::held::current_holders;
use crate::placing::placement;
use crate::row::ChunkState;
use crate::targets::{TargetList, VersionTarget, holder_targets, new_attempt};
use crate::telling::{tells_location, tells_to_wait};
use gfs_types::ids::{Handle, Node, OrderNo, ServerId, Version};
use log_records::record::Record;
use master_plan::logging::logs;
use master_plan::plan::Plan;
use master_waiting::fault::PlanFault;
use messages::message::Body;
use messages::message_lists::HolderList;
use operation_log::log::OperationLog;
use protocol::seen::Seen;
use snapshot::copy_plan::{CopyPlan, copy_plan};
use std::alloc::Allocator;

// The order by which a server copies its replica, or makes a new one.
fn copy_order(
    handle: Handle,
    copy: Handle,
    version: Version,
    base: Option<u64>,
    order: OrderNo,
) -> Body
    ensures { result ≡ copy_order handle.0 copy.0 version.0 base order }
{
    match base {
        None => Body::Create {
            order,
            handle: copy,
            version,
        },
        Some(held) => Body::CopyLocal {
            order,
            handle,
            version: Version(held),
            copy,
            copy_version: version,
        },
    }
}

fn sends_copy<A: Allocator + Clone>(
    plan: &mut Plan<A>,
    handle: Handle,
    copy: Handle,
    version: Version,
    target: &VersionTarget,
) -> Result<(), PlanFault>
    ensures { OnOk result ((disk : LogDisk) → orders (doing disk plan.old) target.now.server (copy_order handle.0 copy.0 version.0 target.now.base) ≡ doing disk plan.new) }
{
    let order = plan.next_order()?;
    let body = copy_order(handle, copy, version, target.base(), order);
    plan.tell(Node::Server(target.server()), body)
}

fn sends_copies<A: Allocator + Clone>(
    plan: &mut Plan<A>,
    handle: Handle,
    copy: Handle,
    version: Version,
    targets: &[VersionTarget],
) -> Result<(), PlanFault>
    ensures { OnOk result ((disk : LogDisk) → sends_copies (doing disk plan.old) handle.0 copy.0 version.0 targets.now ≡ doing disk plan.new) }
{
    for target in targets {
        sends_copy(plan, handle, copy, version, target)?;
    }
    Ok(())
}

// Each current holder copies; a chunk that was never granted is placed anew.
fn copy_targets<A: Allocator + Clone>(
    plan: &Plan<A>,
    handle: Handle,
    row: &ChunkState,
) -> Result<TargetList, PlanFault>
    ensures { IfOk result (λ targets. targets ≡ copy_targets (known plan.now) handle.0 row.now) }
{
    if row.granted().0 == 0 {
        return new_targets(plan, row);
    }
    let current = current_holders(plan, handle, row)?;
    holder_targets(current.as_slice(), plan.alloc())
}

fn new_targets<A: Allocator + Clone>(
    plan: &Plan<A>,
    row: &ChunkState,
) -> Result<TargetList, PlanFault>
    ensures { IfOk result (λ targets. targets ≡ map new_target (placement (known plan.now) row.now)) }
{
    let servers = placement(plan, row)?;
    let mut targets = TargetList::empty(plan.alloc());
    for server in &servers {
        targets.push(VersionTarget::new(ServerId(*server), None))?;
    }
    Ok(targets)
}

// A copy that is on the disk is ordered, and the client waits.
fn sends_copy_started<A: Allocator + Clone>(
    plan: &mut Plan<A>,
    asker: Asker,
    handle: Handle,
    copy: Handle,
    version: Version,
    targets: &[VersionTarget],
) -> Result<(), PlanFault>
    ensures { OnOk result ((disk : LogDisk) → sends_copy_started (doing disk plan.old) (asker_of asker) handle.0 copy.0 version.0 targets.now ≡ doing disk plan.new) }
{
    plan.see(Seen::CopyStarted { handle, copy })?;
    let attempt = new_attempt(plan, version, targets)?;
    plan.put_attempt(copy, attempt)?;
    sends_copies(plan, handle, copy, version, targets)?;
    tells_to_wait(plan, asker)
}

// The numbers of the copy. Limit: no version number is left.
#[tactic(auto, using(crate::proofs::Owned::planned))]
fn planned_copy<A: Allocator + Clone>(
    plan: &Plan<A>,
    asker: Asker,
    handle: Handle,
    row: &ChunkState,
) -> Result<CopyPlan, PlanFault>
    requires own { IsOwn plan.now asker.file.0 asker.index handle.0 row.now }
    requires shared { IsTrue (nat_lt 1 row.now.references) }
    ensures { IfOk result (λ copy. copy ≡ record { file = asker.file; index = asker.index; source = handle; copy = handle_id plan.now.logged.next_handle; version = version_id (suc row.now.issued) }) }
{
    row.next_version()?;
    match copy_plan(plan.state().table(), asker.file, asker.index) {
        Some(copy) => Ok(copy),
        None => unreachable!(),
    }
}

#[tactic(auto, using(crate::proofs::Copies::to_none, crate::proofs::Copies::to_some))]
// The copy is logged, then ordered; while there are no holders, none is begun.
fn copies_to<L: OperationLog, A: Allocator + Clone>(
    log: &L,
    plan: &mut Plan<A>,
    asker: Asker,
    handle: Handle,
    row: &ChunkState,
    targets: &[VersionTarget],
) -> Result<(), PlanFault>
    requires own { IsOwn plan.old asker.file.0 asker.index handle.0 row.now }
    requires shared { IsTrue (nat_lt 1 row.now.references) }
    ensures { OnOk result (copies_to (doing (L.disk log.now) plan.old) (asker_of asker) handle.0 row.now targets.now ≡ doing (L.disk log.now) plan.new) }
{
    if targets.is_empty() {
        let none = HolderList::empty(plan.alloc());
        return tells_location(plan, asker, handle, row, none);
    }
    let copy = planned_copy(plan, asker, handle, row)?;
    let entry = Record::CopyStart {
        file: copy.file,
        index: copy.index,
        handle: copy.source,
        copy: copy.copy,
        copy_version: copy.version,
    };
    if logs(log, plan, entry)? {
        sends_copy_started(plan, asker, handle, copy.copy, copy.version, targets)?;
    }
    Ok(())
}

/// A shared chunk is copied for one owner, under a new handle whose first version follows the old handle's issued one.
pub fn begins_copy<L: OperationLog, A: Allocator + Clone>(
    log: &L,
    plan: &mut Plan<A>,
    asker: Asker,
    handle: Handle,
    row: &ChunkState,
) -> Result<(), PlanFault>
    requires own { IsOwn plan.old asker.file.0 asker.index handle.0 row.now }
    requires shared { IsTrue (nat_lt 1 row.now.references) }
    ensures { OnOk result (begins_copy (doing (L.disk log.now) plan.old) (asker_of asker) handle.0 row.now ≡ doing (L.disk log.now) plan.new) }
{
    let targets = copy_targets(plan, handle, row)?;
    copies_to(log, plan, asker, handle, row, targets.as_slice())
}
