//! What the master tells who asked for a chunk.

ghost use Rattle.std.specs.Prelude.{◌≡◌, OnOk};
ghost use Rattle.protocol.specs.Logged.{LogDisk};
ghost use Rattle.protocol.specs.MasterVersions.{tells_location, tells_holders, tells_none, tells_to_wait};
ghost use Rattle.master_plan.specs.Plans.{doing};
ghost use Rattle.master_chunks.specs.Askers.{asker_of};

use crate::asker::Asker;
use crate::held::{current_holders, holder_lines};
use crate::row::{ChunkState, group_of};
use gfs_types::ids::Handle;
use master_plan::plan::Plan;
use master_waiting::fault::PlanFault;
use messages::message::{Body, Location};
use messages::message_lists::HolderList;
use std::alloc::Allocator;

/// Where the chunk is, with these holders.
pub fn tells_location<A: Allocator + Clone>(
    plan: &mut Plan<A>,
    asker: Asker,
    handle: Handle,
    row: &ChunkState,
    holders: HolderList,
) -> Result<(), PlanFault>
    ensures { OnOk result ((disk : LogDisk) → tells_location (doing disk plan.old) (asker_of asker) handle.0 row.now holders ≡ doing disk plan.new) }
{
    let location = Location {
        index: asker.index,
        handle,
        round: row.granted(),
        shape: row.shape(),
        holders,
        group: group_of(plan, row)?,
    };
    let body = Body::Told {
        number: asker.number,
        location: Some(location),
    };
    plan.tell(asker.client, body)
}

/// The chunk's current holders, and its primary.
pub fn tells_holders<A: Allocator + Clone>(
    plan: &mut Plan<A>,
    asker: Asker,
    handle: Handle,
    row: &ChunkState,
) -> Result<(), PlanFault>
    ensures { OnOk result ((disk : LogDisk) → tells_holders (doing disk plan.old) (asker_of asker) handle.0 row.now ≡ doing disk plan.new) }
{
    let holders = current_holders(plan, handle, row)?;
    let lines = holder_lines(holders.as_slice(), plan.alloc())?;
    tells_location(plan, asker, handle, row, lines)
}

/// There is no such chunk.
pub fn tells_none<A: Allocator + Clone>(plan: &mut Plan<A>, asker: Asker) -> Result<(), PlanFault>
    ensures { OnOk result ((disk : LogDisk) → tells_none (doing disk plan.old) (asker_of asker) ≡ doing disk plan.new) }
{
    let body = Body::Told {
        number: asker.number,
        location: None,
    };
    plan.tell(asker.client, body)
}

/// The client is to ask again.
pub fn tells_to_wait<A: Allocator + Clone>(
    plan: &mut Plan<A>,
    asker: Asker,
) -> Result<(), PlanFault>
    ensures { OnOk result ((disk : LogDisk) → tells_to_wait (doing disk plan.old) (asker_of asker) ≡ doing disk plan.new) }
{
    let body = Body::Wait {
        number: asker.number,
    };
    plan.tell(asker.client, body)
}
