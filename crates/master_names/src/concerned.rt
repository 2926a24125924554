//! The chunks and files that a snapshot concerns.

ghost use Rattle.std.specs.Prelude.{◌≡◌, IfOk};
ghost use Rattle.protocol.specs.MasterSnapshots.{snapshot_handles, snapshot_files};
ghost use Rattle.master_plan.specs.Plans.{known};

use master_plan::plan::Plan;
use master_waiting::fault::PlanFault;
use master_waiting::waiting::Pending;
use snapshot::plan::SnapshotPlan;
use std::alloc::Allocator;

/// What a snapshot is about now: its chunks are those that it concerns, also those that were added meanwhile, and its files those that
/// it copies.
pub fn snapshot_plan<A: Allocator + Clone>(
    plan: &Plan<A>,
    snapshot: &Pending,
) -> Result<SnapshotPlan, PlanFault>
    ensures chunks { IfOk result (λ p. p.chunks ≡ snapshot_handles (known plan.now) snapshot.now) }
    ensures files { IfOk result (λ p. p.files ≡ snapshot_files (known plan.now) snapshot.now) }
{
    let found = plan.state().plan_snapshot(snapshot.from(), snapshot.to())?;
    Ok(found)
}
