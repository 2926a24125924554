//! Leases that their primaries are to end.

ghost use Rattle.std.specs.Prelude.{◌≡◌, OnOk};
ghost use Rattle.protocol.specs.Logged.{LogDisk};
ghost use Rattle.protocol.specs.MasterSnapshots.{revokes, revokes_all};
ghost use Rattle.master_plan.specs.Plans.{doing};

use crate::plan::Plan;
use gfs_types::ids::{Handle, Node};
use master_waiting::fault::PlanFault;
use messages::message::Body;
use std::alloc::Allocator;

/// The primary of a chunk whose lease counts is told to end it.
pub fn revokes<A: Allocator + Clone>(plan: &mut Plan<A>, handle: Handle) -> Result<(), PlanFault>
    ensures { OnOk result ((disk : LogDisk) → revokes (doing disk plan.old) handle.0 ≡ doing disk plan.new) }
{
    let Some(chunk) = plan.state().table().chunk(handle) else {
        return Ok(());
    };
    if !plan.has_lease(chunk) {
        return Ok(());
    }
    let primary = chunk.primary();
    let version = chunk.granted();
    let order = plan.next_order()?;
    plan.tell(
        Node::Server(primary),
        Body::Revoke {
            order,
            handle,
            version,
        },
    )
}

/// The same for each of these chunks, in their order.
pub fn revokes_all<A: Allocator + Clone>(
    plan: &mut Plan<A>,
    handles: &[u64],
) -> Result<(), PlanFault>
    ensures { OnOk result ((disk : LogDisk) → revokes_all (doing disk plan.old) handles.now ≡ doing disk plan.new) }
{
    for handle in handles {
        revokes(plan, Handle(*handle))?;
    }
    Ok(())
}
