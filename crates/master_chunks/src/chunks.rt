//! A file's chunks, and where they are.

ghost use Rattle.std.specs.Prelude.{◌≡◌, length, option_map, IfOk, OnOk};
ghost use Rattle.messages.specs.declared.message.Body.TheVariants as body;
ghost use Rattle.chunk_table.specs.ChunkTable.{handles_of};
ghost use Rattle.protocol.specs.Tables.{element_at};
ghost use Rattle.protocol.specs.Logged.{LogDisk};
ghost use Rattle.protocol.specs.Master.{tells};
ghost use Rattle.protocol.specs.MasterAsks.{looks_at, looks_at_row, asks_for_last};
ghost use Rattle.master_plan.specs.Plans.{doing};
ghost use Rattle.master_chunks.specs.Askers.{asker_of};

use crate::asker::Asker;
use crate::row::{ChunkState, chunk_of};
use crate::telling::{tells_holders, tells_none};
use gfs_types::ids::{FileId, Handle};
use gfs_types::refusal::Refusal;
use master_plan::plan::Plan;
use master_waiting::fault::PlanFault;
use messages::message::Body;
use std::alloc::Allocator;

#[tactic(auto, using(crate::proofs::Handles::no_handles))]
/// How many chunks a file has.
pub fn chunk_count<A: Allocator + Clone>(plan: &Plan<A>, file: FileId) -> u64
    ensures { result ≡ length (handles_of plan.now.logged.table file.0) }
{
    match plan.state().table().file(file) {
        Some(handles) => handles.len() as u64,
        None => 0,
    }
}

#[tactic(auto, using(crate::proofs::Handles::no_handles, crate::proofs::Handles::at_place, crate::proofs::Handles::past_all))]
/// The file's chunk of this index.
pub fn handle_at<A: Allocator + Clone>(plan: &Plan<A>, file: FileId, index: u64) -> Option<Handle>
    ensures { option_map (λ h. h.0) result ≡ element_at (handles_of plan.now.logged.table file.0) index }
{
    let Some(handles) = plan.state().table().file(file) else {
        return None;
    };
    let handles = handles.as_slice();
    if index < handles.len() as u64 {
        Some(Handle(handles[index as usize]))
    } else {
        None
    }
}

/// The asker's request is refused.
pub fn refuses<A: Allocator + Clone>(
    plan: &mut Plan<A>,
    asker: Asker,
    refusal: Refusal,
) -> Result<(), PlanFault>
    ensures { OnOk result ((disk : LogDisk) → tells (doing disk plan.old) asker.client (body.Refused asker.number refusal) ≡ doing disk plan.new) }
{
    let body = Body::Refused {
        number: asker.number,
        refusal,
    };
    plan.tell(asker.client, body)
}

fn looks_at_row<A: Allocator + Clone>(
    plan: &mut Plan<A>,
    asker: Asker,
    handle: Handle,
    row: Option<ChunkState>,
) -> Result<(), PlanFault>
    ensures { OnOk result ((disk : LogDisk) → looks_at_row (doing disk plan.old) (asker_of asker) handle.0 row ≡ doing disk plan.new) }
{
    match row {
        None => Ok(()),
        Some(row) => tells_holders(plan, asker, handle, &row),
    }
}

/// Where a chunk is; that there is none.
pub fn looks_at<A: Allocator + Clone>(
    plan: &mut Plan<A>,
    asker: Asker,
    handle: Option<Handle>,
) -> Result<(), PlanFault>
    ensures { OnOk result ((disk : LogDisk) → looks_at (doing disk plan.old) (asker_of asker) (option_map (λ h. h.0) handle) ≡ doing disk plan.new) }
{
    let Some(handle) = handle else {
        return tells_none(plan, asker);
    };
    let row = chunk_of(plan, handle)?;
    looks_at_row(plan, asker, handle, row)
}

#[tactic(auto, using(crate::proofs::Handles::last_of_none, crate::proofs::Handles::last_of_some))]
/// The last chunk, for the file's length.
pub fn asks_for_last<A: Allocator + Clone>(
    plan: &mut Plan<A>,
    asker: Asker,
) -> Result<(), PlanFault>
    ensures { OnOk result ((disk : LogDisk) → asks_for_last (doing disk plan.old) (asker_of asker) (handles_of plan.old.logged.table asker.file.0) (length (handles_of plan.old.logged.table asker.file.0)) ≡ doing disk plan.new) }
{
    let count = chunk_count(plan, asker.file);
    if count == 0 {
        return tells_none(plan, asker);
    }
    let last = count - 1;
    let handle = handle_at(plan, asker.file, last);
    looks_at(plan, asker.at_index(last), handle)
}
