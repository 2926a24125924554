//! When a snapshot has waited enough.

ghost use Rattle.std.specs.Prelude.{◌≡◌, IfOk};
ghost use Rattle.std.specs.List.{list_all};
ghost use Rattle.chunk_table.specs.ChunkTable.{chunk_of};
ghost use Rattle.protocol.specs.MasterSnapshots.{is_ready, row_has_ended};
ghost use Rattle.master_plan.specs.Plans.{known};

use crate::alone::{file_alone, handles_of};
use crate::concerned::snapshot_plan;
use gfs_types::ids::Handle;
use leases::master::ended;
use master_plan::plan::Plan;
use master_waiting::fault::PlanFault;
use master_waiting::waiting::Pending;
use std::alloc::Allocator;

/// Whether no lease of the chunks concerned is left to end.
#[tactic(auto, using(crate::proofs::Sources::all_rising))]
pub fn is_ready<A: Allocator + Clone>(plan: &Plan<A>, snapshot: &Pending) -> Result<bool, PlanFault>
    ensures { IfOk result (λ b. b ≡ is_ready (known plan.now) snapshot.now) }
{
    if let Some(file) = file_alone(plan, snapshot) {
        return Ok(have_ended(plan, handles_of(plan, file)));
    }
    let found = snapshot_plan(plan, snapshot)?;
    Ok(have_ended(plan, found.chunks()))
}

fn have_ended<A: Allocator + Clone>(plan: &Plan<A>, handles: &[u64]) -> bool
    ensures { result ≡ list_all (λ handle. row_has_ended plan.now.now (chunk_of plan.now.logged.table handle)) handles.now }
{
    handles
        .iter()
        .all(|handle| has_ended(plan, Handle(*handle)))
}

pub(crate) fn has_ended<A: Allocator + Clone>(plan: &Plan<A>, handle: Handle) -> bool
    ensures { result ≡ row_has_ended plan.now.now (chunk_of plan.now.logged.table handle.0) }
{
    match plan.state().table().chunk(handle) {
        Some(chunk) => ended(chunk, plan.now()),
        None => true,
    }
}
