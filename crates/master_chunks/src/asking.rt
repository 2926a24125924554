//! Asks of clients, each taken only before its deadline.

ghost use Rattle.std.specs.Prelude.{◌≡◌, OnOk};
ghost use Rattle.chunk_table.specs.ChunkTable.{file_of, handles_of};
ghost use Rattle.protocol.specs.MasterAsks.{asks_for, asks_of, takes_ask};
ghost use Rattle.master_plan.specs.Plans.{doing};
ghost use Rattle.master_chunks.specs.Askers.{asker_of};

use crate::asker::Asker;
use crate::chunks::{asks_for_last, handle_at, looks_at, refuses};
use crate::mutating::{asks_to_append, asks_to_write};
use gfs_types::ids::{FileId, Moment, Node};
use gfs_types::refusal::Refusal;
use master_plan::plan::Plan;
use master_waiting::fault::PlanFault;
use messages::message::Wanted;
use operation_log::log::OperationLog;
use std::alloc::Allocator;

/// An Ask: the client is told where the chunk is, or to wait, or why it gets none. Before a write or an append it gets a primary.
pub fn takes_ask<L: OperationLog, A: Allocator + Clone>(
    log: &L,
    plan: &mut Plan<A>,
    client: Node,
    number: u64,
    file: FileId,
    wanted: Wanted,
    deadline: Moment,
    lost: bool,
) -> Result<(), PlanFault>
    ensures { OnOk result (takes_ask (doing (L.disk log.now) plan.old) client number file.0 wanted deadline.0 lost ≡ doing (L.disk log.now) plan.new) }
{
    if deadline <= plan.now() {
        return Ok(());
    }
    let asker = Asker {
        client,
        number,
        file,
        index: 0,
    };
    asks_of(log, plan, asker, lost, wanted)
}

fn asks_of<L: OperationLog, A: Allocator + Clone>(
    log: &L,
    plan: &mut Plan<A>,
    asker: Asker,
    lost: bool,
    wanted: Wanted,
) -> Result<(), PlanFault>
    ensures { OnOk result (asks_of (doing (L.disk log.now) plan.old) (asker_of asker) lost wanted (file_of plan.old.logged.table asker.file.0) ≡ doing (L.disk log.now) plan.new) }
{
    if plan.state().table().file(asker.file).is_none() {
        return refuses(plan, asker, Refusal::Collected);
    }
    asks_for(log, plan, asker, lost, wanted)
}

fn asks_for<L: OperationLog, A: Allocator + Clone>(
    log: &L,
    plan: &mut Plan<A>,
    asker: Asker,
    lost: bool,
    wanted: Wanted,
) -> Result<(), PlanFault>
    ensures { OnOk result (asks_for (doing (L.disk log.now) plan.old) (asker_of asker) lost wanted (handles_of plan.old.logged.table asker.file.0) ≡ doing (L.disk log.now) plan.new) }
{
    match wanted {
        Wanted::Read(index) => {
            let handle = handle_at(plan, asker.file, index);
            looks_at(plan, asker.at_index(index), handle)
        }
        Wanted::Write(index) => asks_to_write(log, plan, asker, lost, index),
        Wanted::Append(after) => asks_to_append(log, plan, asker, lost, after),
        Wanted::Last => asks_for_last(plan, asker),
    }
}
