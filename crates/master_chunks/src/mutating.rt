//! Where a write or an append is to go.

ghost use Rattle.std.specs.Prelude.{◌≡◌, length, if◌then◌else◌, option_map, IfSome, OnOk};
ghost use Rattle.chunk_table.specs.ChunkTable.{chunk_of, handles_of};
ghost use Rattle.protocol.specs.Logged.{LogDisk};
ghost use Rattle.protocol.specs.MasterSnapshots.{revokes};
ghost use Rattle.protocol.specs.MasterAsks.{mutates_row, mutates_at, adds_chunk, asks_to_write, asks_to_append};
ghost use Rattle.master_plan.specs.Plans.{doing};
ghost use Rattle.master_chunks.specs.Askers.{asker_of};
ghost use Rattle.master_chunks.specs.Own.{IsListed};

use crate::asker::Asker;
use crate::chunks::{chunk_count, handle_at, refuses};
use crate::row::{ChunkState, chunk_of};
use crate::telling::tells_holders;
use crate::wanting::wants_primary;
use gfs_types::ids::Handle;
use gfs_types::refusal::Refusal;
use log_records::record::Record;
use master_plan::logging::logs;
use master_plan::plan::Plan;
use master_plan::revokes::revokes;
use master_waiting::fault::PlanFault;
use operation_log::log::OperationLog;
use std::alloc::Allocator;

// The primary is to end its lease where it said that it has none.
fn revokes_lost<A: Allocator + Clone>(
    plan: &mut Plan<A>,
    handle: Handle,
    lost: bool,
) -> Result<(), PlanFault>
    ensures { OnOk result ((disk : LogDisk) → (if lost then revokes (doing disk plan.old) handle.0 else doing disk plan.old) ≡ doing disk plan.new) }
{
    if lost {
        return revokes(plan, handle);
    }
    Ok(())
}

// Where the lease has not ended, the primary is told.
fn mutates_row<L: OperationLog, A: Allocator + Clone>(
    log: &L,
    plan: &mut Plan<A>,
    asker: Asker,
    lost: bool,
    handle: Handle,
    row: Option<ChunkState>,
) -> Result<(), PlanFault>
    requires listed { IsListed plan.old asker.file.0 asker.index handle.0 }
    requires stands { row ≡ chunk_of plan.old.logged.table handle.0 }
    ensures { OnOk result (mutates_row (doing (L.disk log.now) plan.old) (asker_of asker) lost handle.0 row ≡ doing (L.disk log.now) plan.new) }
{
    let Some(row) = row else {
        return Ok(());
    };
    if row.lease_end() <= plan.now() {
        return wants_primary(log, plan, asker, handle, &row);
    }
    revokes_lost(plan, handle, lost)?;
    tells_holders(plan, asker, handle, &row)
}

fn mutates_at<L: OperationLog, A: Allocator + Clone>(
    log: &L,
    plan: &mut Plan<A>,
    asker: Asker,
    lost: bool,
    handle: Option<Handle>,
) -> Result<(), PlanFault>
    requires listed { IfSome handle (λ h. IsListed plan.old asker.file.0 asker.index h.0) }
    ensures { OnOk result (mutates_at (doing (L.disk log.now) plan.old) (asker_of asker) lost (option_map (λ h. h.0) handle) ≡ doing (L.disk log.now) plan.new) }
{
    match handle {
        None => Ok(()),
        Some(handle) => {
            let row = chunk_of(plan, handle)?;
            mutates_row(log, plan, asker, lost, handle, row)
        }
    }
}

#[tactic(auto, using(crate::proofs::Handles::adds_by))]
// One more chunk at the file's end.
fn adds_chunk<L: OperationLog, A: Allocator + Clone>(
    log: &L,
    plan: &mut Plan<A>,
    asker: Asker,
    lost: bool,
) -> Result<(), PlanFault>
    requires next { asker.index ≡ length (handles_of plan.old.logged.table asker.file.0) }
    ensures { OnOk result (adds_chunk (doing (L.disk log.now) plan.old) (asker_of asker) lost ≡ doing (L.disk log.now) plan.new) }
{
    let handle = plan.state().table().next_handle();
    let file = asker.file;
    if logs(log, plan, Record::AddChunk { file, handle })? {
        mutates_at(log, plan, asker, lost, Some(handle))?;
    }
    Ok(())
}

/// A write to the chunk of an index, which may be the one after the last.
pub fn asks_to_write<L: OperationLog, A: Allocator + Clone>(
    log: &L,
    plan: &mut Plan<A>,
    asker: Asker,
    lost: bool,
    index: u64,
) -> Result<(), PlanFault>
    ensures { OnOk result (asks_to_write (doing (L.disk log.now) plan.old) (asker_of asker) lost (handles_of plan.old.logged.table asker.file.0) index ≡ doing (L.disk log.now) plan.new) }
{
    let count = chunk_count(plan, asker.file);
    if count < index {
        return refuses(plan, asker, Refusal::TooLong);
    }
    if index == count {
        return adds_chunk(log, plan, asker.at_index(index), lost);
    }
    let handle = handle_at(plan, asker.file, index);
    mutates_at(log, plan, asker.at_index(index), lost, handle)
}

#[tactic(auto, using(crate::proofs::Handles::append_first, crate::proofs::Handles::append_later))]
/// An append to the last chunk, where it isn't below the index that was asked for.
pub fn asks_to_append<L: OperationLog, A: Allocator + Clone>(
    log: &L,
    plan: &mut Plan<A>,
    asker: Asker,
    lost: bool,
    after: u64,
) -> Result<(), PlanFault>
    ensures { OnOk result (asks_to_append (doing (L.disk log.now) plan.old) (asker_of asker) lost (handles_of plan.old.logged.table asker.file.0) after (length (handles_of plan.old.logged.table asker.file.0)) ≡ doing (L.disk log.now) plan.new) }
{
    let count = chunk_count(plan, asker.file);
    if count == 0 {
        return adds_chunk(log, plan, asker.at_index(0), lost);
    }
    let last = count - 1;
    if last < after {
        return adds_chunk(log, plan, asker.at_index(count), lost);
    }
    let handle = handle_at(plan, asker.file, last);
    mutates_at(log, plan, asker.at_index(last), lost, handle)
}
