//! A write or append needs a primary, and the last lease has ended.

ghost use Rattle.std.specs.Prelude.{◌≡◌, nat_lt, not, option_map, IfSome, OnOk};
ghost use Rattle.protocol.specs.MasterVersions.{wants_own, wants_own_of, issues_copy, wants_copy, wants_by, wants_primary};
ghost use Rattle.master_plan.specs.Plans.{doing};
ghost use Rattle.master_chunks.specs.Askers.{asker_of};
ghost use Rattle.master_chunks.specs.Own.{IsOwn};

use crate::asker::Asker;
use crate::copying::begins_copy;
use crate::held::{HeldAt, VersionTest, holders_where};
use crate::issuing::{is_attempted, issues_own, issues_to};
use crate::row::{ChunkState, chunk_of};
use crate::targets::holder_targets;
use crate::telling::tells_to_wait;
use gfs_types::ids::Handle;
use leases::master::may_issue;
use master_plan::plan::Plan;
use master_waiting::fault::PlanFault;
use operation_log::log::OperationLog;
use std::alloc::Allocator;

// Whether a number may be issued, as far as lease and owners say: the chunk isn't shared.
#[tactic(auto, using(crate::proofs::Owned::issuable))]
fn is_issuable<A: Allocator + Clone>(
    plan: &Plan<A>,
    asker: Asker,
    handle: Handle,
    row: &ChunkState,
) -> bool
    requires own { IsOwn plan.now asker.file.0 asker.index handle.0 row.now }
    ensures { result ≡ not (nat_lt 1 row.now.references) }
{
    let table = plan.state().table();
    table.is_sound();
    match table.chunk(handle) {
        Some(chunk) => may_issue(chunk, plan.now()),
        None => false,
    }
}

// No copy is under way for this owner.
fn wants_own<L: OperationLog, A: Allocator + Clone>(
    log: &L,
    plan: &mut Plan<A>,
    asker: Asker,
    handle: Handle,
    row: &ChunkState,
) -> Result<(), PlanFault>
    requires own { IsOwn plan.old asker.file.0 asker.index handle.0 row.now }
    ensures { OnOk result (wants_own (doing (L.disk log.now) plan.old) (asker_of asker) handle.0 row.now ≡ doing (L.disk log.now) plan.new) }
{
    if !is_issuable(plan, asker, handle, row) {
        return begins_copy(log, plan, asker, handle, row);
    }
    if plan.state().is_copied(handle) {
        return tells_to_wait(plan, asker);
    }
    let attempted = is_attempted(plan, handle);
    issues_own(log, plan, asker, handle, row, attempted)
}

fn wants_own_of<L: OperationLog, A: Allocator + Clone>(
    log: &L,
    plan: &mut Plan<A>,
    asker: Asker,
    handle: Handle,
    row: Option<ChunkState>,
) -> Result<(), PlanFault>
    requires own { IfSome row (IsOwn plan.old asker.file.0 asker.index handle.0) }
    ensures { OnOk result (wants_own_of (doing (L.disk log.now) plan.old) (asker_of asker) handle.0 row ≡ doing (L.disk log.now) plan.new) }
{
    match row {
        None => Ok(()),
        Some(row) => wants_own(log, plan, asker, handle, &row),
    }
}

#[tactic(auto, using(crate::proofs::Copies::by_none, crate::proofs::Copies::by_some))]
// A copy whose number was given up: the next number goes to those that recorded it. Where none did, the copy is given up.
fn issues_copy<L: OperationLog, A: Allocator + Clone>(
    log: &L,
    plan: &mut Plan<A>,
    asker: Asker,
    handle: Handle,
    row: &ChunkState,
    copy: Handle,
    copy_row: &ChunkState,
    holders: &[HeldAt],
) -> Result<(), PlanFault>
    requires own { IsOwn plan.old asker.file.0 asker.index handle.0 row.now }
    ensures { OnOk result (issues_copy (doing (L.disk log.now) plan.old) (asker_of asker) handle.0 row.now copy.0 copy_row.now holders.now ≡ doing (L.disk log.now) plan.new) }
{
    if holders.is_empty() {
        plan.give_up_copies(&[copy.0])?;
        let own = chunk_of(plan, handle)?;
        return wants_own_of(log, plan, asker, handle, own);
    }
    let targets = holder_targets(holders, plan.alloc())?;
    issues_to(
        log,
        plan,
        asker,
        handle,
        row,
        copy,
        copy_row,
        targets.as_slice(),
    )
}

fn wants_copy<L: OperationLog, A: Allocator + Clone>(
    log: &L,
    plan: &mut Plan<A>,
    asker: Asker,
    handle: Handle,
    row: &ChunkState,
    copy: Handle,
    copy_row: Option<ChunkState>,
) -> Result<(), PlanFault>
    requires own { IsOwn plan.old asker.file.0 asker.index handle.0 row.now }
    ensures { OnOk result (wants_copy (doing (L.disk log.now) plan.old) (asker_of asker) handle.0 row.now copy.0 copy_row ≡ doing (L.disk log.now) plan.new) }
{
    let Some(copy_row) = copy_row else {
        return wants_own(log, plan, asker, handle, row);
    };
    if is_attempted(plan, copy) {
        return tells_to_wait(plan, asker);
    }
    let recorded = holders_where(plan, copy, VersionTest::Exactly(copy_row.issued()))?;
    issues_copy(
        log,
        plan,
        asker,
        handle,
        row,
        copy,
        &copy_row,
        recorded.as_slice(),
    )
}

fn wants_by<L: OperationLog, A: Allocator + Clone>(
    log: &L,
    plan: &mut Plan<A>,
    asker: Asker,
    handle: Handle,
    row: &ChunkState,
    copy: Option<Handle>,
) -> Result<(), PlanFault>
    requires own { IsOwn plan.old asker.file.0 asker.index handle.0 row.now }
    ensures { OnOk result (wants_by (doing (L.disk log.now) plan.old) (asker_of asker) handle.0 row.now (option_map (λ h. h.0) copy) ≡ doing (L.disk log.now) plan.new) }
{
    let Some(copy) = copy else {
        return wants_own(log, plan, asker, handle, row);
    };
    let copy_row = chunk_of(plan, copy)?;
    wants_copy(log, plan, asker, handle, row, copy, copy_row)
}

/// A write or append needs a primary, and the last lease has ended.
pub fn wants_primary<L: OperationLog, A: Allocator + Clone>(
    log: &L,
    plan: &mut Plan<A>,
    asker: Asker,
    handle: Handle,
    row: &ChunkState,
) -> Result<(), PlanFault>
    requires own { IsOwn plan.old asker.file.0 asker.index handle.0 row.now }
    ensures { OnOk result (wants_primary (doing (L.disk log.now) plan.old) (asker_of asker) handle.0 row.now ≡ doing (L.disk log.now) plan.new) }
{
    if plan.waits_for(handle)? {
        return tells_to_wait(plan, asker);
    }
    let copy = plan.state().copy_for(asker.file, asker.index);
    wants_by(log, plan, asker, handle, row, copy)
}
