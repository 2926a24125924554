//! Version numbers, each sent to its set after its record.

ghost use Rattle.std.specs.Prelude.{◌≡◌, option_map, IfOk, OnOk};
ghost use Rattle.protocol.specs.Logged.{LogDisk};
ghost use Rattle.protocol.specs.Master.{orders};
ghost use Rattle.protocol.specs.MasterVersions.{VersionTarget, version_order, sends_versions, sends_issued, issues_to, recorded_holders, targets_by, issues_own, is_attempted};
ghost use Rattle.master_plan.specs.Plans.{doing, known};
ghost use Rattle.master_chunks.specs.Askers.{asker_of};

use crate::asker::Asker;
use crate::held::{HeldAt, HeldList, VersionTest, holders_where, present_current_holders};
use crate::row::ChunkState;
use crate::targets::{TargetList, VersionTarget, holder_targets, new_attempt, placed_targets};
use crate::telling::{tells_location, tells_to_wait};
use gfs_types::ids::{Handle, Node, OrderNo, Version};
use log_records::record::Record;
use master_plan::logging::logs;
use master_plan::plan::Plan;
use master_waiting::fault::PlanFault;
use messages::message::Body;
use messages::message_lists::HolderList;
use operation_log::log::OperationLog;
use std::alloc::Allocator;

// The order that gives a server its number.
fn version_order(handle: Handle, version: Version, base: Option<u64>, order: OrderNo) -> Body
    ensures { result ≡ version_order handle.0 version.0 base order }
{
    match base {
        None => Body::Create {
            order,
            handle,
            version,
        },
        Some(base) => Body::SetVersion {
            order,
            handle,
            version,
            base: Version(base),
        },
    }
}

fn sends_version<A: Allocator + Clone>(
    plan: &mut Plan<A>,
    handle: Handle,
    version: Version,
    target: &VersionTarget,
) -> Result<(), PlanFault>
    ensures { OnOk result ((disk : LogDisk) → orders (doing disk plan.old) target.now.server (version_order handle.0 version.0 target.now.base) ≡ doing disk plan.new) }
{
    let order = plan.next_order()?;
    let body = version_order(handle, version, target.base(), order);
    plan.tell(Node::Server(target.server()), body)
}

fn sends_versions<A: Allocator + Clone>(
    plan: &mut Plan<A>,
    handle: Handle,
    version: Version,
    targets: &[VersionTarget],
) -> Result<(), PlanFault>
    ensures { OnOk result ((disk : LogDisk) → sends_versions (doing disk plan.old) handle.0 version.0 targets.now ≡ doing disk plan.new) }
{
    for target in targets {
        sends_version(plan, handle, version, target)?;
    }
    Ok(())
}

// A number that is on the disk is sent to its set, and the client waits.
fn sends_issued<A: Allocator + Clone>(
    plan: &mut Plan<A>,
    asker: Asker,
    handle: Handle,
    version: Version,
    targets: &[VersionTarget],
) -> Result<(), PlanFault>
    ensures { OnOk result ((disk : LogDisk) → sends_issued (doing disk plan.old) (asker_of asker) handle.0 version.0 targets.now ≡ doing disk plan.new) }
{
    let attempt = new_attempt(plan, version, targets)?;
    plan.put_attempt(handle, attempt)?;
    sends_versions(plan, handle, version, targets)?;
    tells_to_wait(plan, asker)
}

#[tactic(auto, using(crate::proofs::Issues::to_none, crate::proofs::Issues::to_some))]
/// The next number is logged, then sent to one set of servers; while the set would be empty, none is issued, and the client is
/// told its own chunk without holders.
pub fn issues_to<L: OperationLog, A: Allocator + Clone>(
    log: &L,
    plan: &mut Plan<A>,
    asker: Asker,
    own: Handle,
    own_row: &ChunkState,
    handle: Handle,
    row: &ChunkState,
    targets: &[VersionTarget],
) -> Result<(), PlanFault>
    ensures { OnOk result (issues_to (doing (L.disk log.now) plan.old) (asker_of asker) own.0 own_row.now handle.0 row.now targets.now ≡ doing (L.disk log.now) plan.new) }
{
    if targets.is_empty() {
        let none = HolderList::empty(plan.alloc());
        return tells_location(plan, asker, own, own_row, none);
    }
    let version = row.next_version()?;
    if logs(log, plan, Record::Issue { handle, version })? {
        sends_issued(plan, asker, handle, version, targets)?;
    }
    Ok(())
}

// Those that recorded a number that was given up.
fn recorded_holders<A: Allocator + Clone>(
    plan: &Plan<A>,
    handle: Handle,
    row: &ChunkState,
) -> Result<HeldList, PlanFault>
    ensures { IfOk result (λ holders. holders ≡ recorded_holders (known plan.now) handle.0 row.now) }
{
    if row.granted() < row.issued() {
        holders_where(plan, handle, VersionTest::Exactly(row.issued()))
    } else {
        Ok(HeldList::empty(plan.alloc()))
    }
}

// Where none did: the present current holders of a chunk that was granted, else a new placement.
fn targets_by<A: Allocator + Clone>(
    plan: &Plan<A>,
    handle: Handle,
    row: &ChunkState,
    holders: &[HeldAt],
) -> Result<TargetList, PlanFault>
    ensures { IfOk result (λ targets. targets ≡ targets_by (known plan.now) handle.0 row.now holders.now) }
{
    if !holders.is_empty() {
        return holder_targets(holders, plan.alloc());
    }
    if row.granted().0 == 0 {
        return placed_targets(plan, handle, row);
    }
    let present = present_current_holders(plan, handle, row)?;
    holder_targets(present.as_slice(), plan.alloc())
}

/// A number for the chunk itself, unless one is under way.
pub fn issues_own<L: OperationLog, A: Allocator + Clone>(
    log: &L,
    plan: &mut Plan<A>,
    asker: Asker,
    handle: Handle,
    row: &ChunkState,
    is_attempted: bool,
) -> Result<(), PlanFault>
    ensures { OnOk result (issues_own (doing (L.disk log.now) plan.old) (asker_of asker) handle.0 row.now is_attempted ≡ doing (L.disk log.now) plan.new) }
{
    if is_attempted {
        return tells_to_wait(plan, asker);
    }
    let recorded = recorded_holders(plan, handle, row)?;
    let targets = targets_by(plan, handle, row, recorded.as_slice())?;
    issues_to(
        log,
        plan,
        asker,
        handle,
        row,
        handle,
        row,
        targets.as_slice(),
    )
}

/// Whether a number of this chunk is under way.
pub fn is_attempted<A: Allocator + Clone>(plan: &Plan<A>, handle: Handle) -> bool
    ensures { result ≡ is_attempted (known plan.now) handle.0 }
{
    plan.attempt(handle).is_some()
}
