//! How a snapshot takes its locks, and gives them back.

ghost use Rattle.std.specs.Prelude.{◌≡◌, false, OnOk};
ghost use Rattle.protocol.specs.Logged.{LogDisk};
ghost use Rattle.protocol.specs.MasterSnapshots.{begins_snapshot, lets_go};
ghost use Rattle.protocol.specs.MasterNames.{is_busy, snapshot_call};
ghost use Rattle.master_plan.specs.Plans.{doing, known};

use crate::concerned::snapshot_plan;
use master_plan::plan::Plan;
use master_plan::revokes::revokes_all;
use master_waiting::fault::PlanFault;
use master_waiting::waiting::Pending;
use std::alloc::Allocator;

// The locks are taken; version numbers of the chunks that are under way, and copies for the files, are given up, and leases are
// revoked.
pub(crate) fn begins_snapshot<A: Allocator + Clone>(
    plan: &mut Plan<A>,
    snapshot: Pending,
) -> Result<(), PlanFault>
    requires { is_busy (known plan.old) (snapshot_call snapshot) ≡ false }
    ensures { OnOk result ((disk : LogDisk) → begins_snapshot (doing disk plan.old) snapshot ≡ doing disk plan.new) }
{
    let found = snapshot_plan(plan, &snapshot)?;
    let copies = plan.state().copies_for_files(found.files())?;
    plan.put_snapshot(snapshot)?;
    plan.remove_attempts(found.chunks());
    plan.give_up_copies(&copies)?;
    revokes_all(plan, found.chunks())
}

/// The locks go back. Takes no memory.
pub fn lets_go<A: Allocator + Clone>(plan: &mut Plan<A>, snapshot: &Pending)
    ensures { (disk : LogDisk) → lets_go (doing disk plan.old) snapshot.now ≡ doing disk plan.new }
{
    plan.remove_snapshot(snapshot.client(), snapshot.number());
}
