//! Snapshots that have waited enough.

ghost use Rattle.std.specs.Prelude.{◌≡◌, if◌then◌else◌, OnOk};
ghost use Rattle.protocol.specs.MasterSnapshots.{is_ready, takes_snapshot, takes_ready};
ghost use Rattle.master_names.specs.Doing.{IsPlanned};

use crate::answers::changes_names;
use crate::awaited::has_waited;
use crate::begins::lets_go;
use crate::waits::{all_wait, notes_wait};
use log_records::record::Record;
use master_plan::plan::Plan;
use master_waiting::fault::PlanFault;
use master_waiting::waiting::Pending;
use operation_log::log::OperationLog;
use std::alloc::Allocator;

/// Each snapshot that is ready is taken, the oldest first. None is looked at where it is known that none is ready.
#[tactic(auto, using(crate::proofs::Snapshots::none_ready, crate::proofs::Snapshots::taken_all))]
pub fn takes_ready<L: OperationLog, A: Allocator + Clone>(
    log: &L,
    plan: &mut Plan<A>,
) -> Result<(), PlanFault>
    ensures { OnOk result (IsPlanned (λ d. takes_ready d d.master.snapshots) (L.disk log.now) plan.old plan.new) }
{
    if all_wait(plan) {
        return Ok(());
    }
    let snapshots = plan.copied_snapshots()?;
    takes_those_ready(log, plan, &snapshots)?;
    notes_wait(plan);
    Ok(())
}

fn takes_those_ready<L: OperationLog, A: Allocator + Clone>(
    log: &L,
    plan: &mut Plan<A>,
    snapshots: &[Pending],
) -> Result<(), PlanFault>
    ensures { OnOk result (IsPlanned (λ d. takes_ready d snapshots.now) (L.disk log.now) plan.old plan.new) }
{
    for snapshot in snapshots {
        takes_if_ready(log, plan, snapshot)?;
    }
    Ok(())
}

#[tactic(auto, using(crate::proofs::Snapshots::takes_it, crate::proofs::Snapshots::leaves_it))]
fn takes_if_ready<L: OperationLog, A: Allocator + Clone>(
    log: &L,
    plan: &mut Plan<A>,
    snapshot: &Pending,
) -> Result<(), PlanFault>
    ensures { OnOk result (IsPlanned (λ d. if is_ready d.master snapshot.now then takes_snapshot d snapshot.now else d) (L.disk log.now) plan.old plan.new) }
{
    if !has_waited(plan, snapshot)? {
        return Ok(());
    }
    takes_snapshot(log, plan, snapshot)
}

// The locks go back, and the snapshot is logged and answered, or refused for want of room.
fn takes_snapshot<L: OperationLog, A: Allocator + Clone>(
    log: &L,
    plan: &mut Plan<A>,
    snapshot: &Pending,
) -> Result<(), PlanFault>
    ensures { OnOk result (IsPlanned (λ d. takes_snapshot d snapshot.now) (L.disk log.now) plan.old plan.new) }
{
    let from = snapshot.from().to_text(plan.alloc())?;
    let to = snapshot.to().to_text(plan.alloc())?;
    lets_go(plan, snapshot);
    let has_room = plan.has_room_to_copy(snapshot.from(), snapshot.to())?;
    let client = snapshot.client();
    let call = snapshot.number();
    let entry = Record::Snapshot {
        client,
        call,
        from,
        to,
    };
    changes_names(log, plan, client, call, has_room, entry)
}
