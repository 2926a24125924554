//! Leases that go on (section 3.1).

ghost use Rattle.std.specs.Prelude.{◌≡◌, false, not, OnOk, MatchBool};
ghost use Rattle.protocol.specs.Logged.{LogDisk};
ghost use Rattle.chunk_table.specs.ChunkTable.{chunk_of};
ghost use Rattle.protocol.specs.MasterReports.{may_extend, extends_row, extends_all};
ghost use Rattle.protocol.specs.MasterSnapshots.{waits_for};
ghost use Rattle.master_plan.specs.Plans.{doing, known};

use chunk_table::chunk::Chunk;
use gfs_types::ids::{Moment, Node, ServerId};
use master_plan::plan::Plan;
use master_waiting::fault::PlanFault;
use messages::message::{Body, LeaseLine};
use std::alloc::Allocator;

// Whether a primary asks for more of a lease that has not ended: it may have it, unless a snapshot waits for the chunk.
fn asks_for_more<A: Allocator + Clone>(
    plan: &Plan<A>,
    server: ServerId,
    line: LeaseLine,
    chunk: &Chunk,
) -> bool
    ensures { MatchBool result (may_extend (known plan.now) server.0 line chunk.now ≡ not (waits_for (known plan.now) line.handle.0)) (may_extend (known plan.now) server.0 line chunk.now ≡ false) }
{
    let asks = line.was_used_since_report
        && chunk.granted() == line.version
        && chunk.primary() == server;
    asks && plan.has_lease(chunk)
}

// A lease gets a later end, where its primary asks for it and may have it.
#[tactic(auto, using(crate::proofs::Extended::not_asked, crate::proofs::Extended::not_later, crate::proofs::Extended::awaited, crate::proofs::Extended::extended, crate::proofs::Extended::later_end))]
fn extends_row<A: Allocator + Clone>(
    plan: &mut Plan<A>,
    server: ServerId,
    line: LeaseLine,
) -> Result<(), PlanFault>
    ensures { OnOk result ((disk : LogDisk) → extends_row (doing disk plan.old) server.0 line (chunk_of plan.old.logged.table line.handle.0) ≡ doing disk plan.new) }
{
    let Some(chunk) = plan.state().table().chunk(line.handle) else {
        return Ok(());
    };
    if !asks_for_more(plan, server, line, chunk) {
        return Ok(());
    }
    let until = plan.now().0 + plan.config().lease_ms;
    if chunk.lease_end().0 >= until {
        return Ok(());
    }
    if plan.waits_for(line.handle)? {
        return Ok(());
    }
    plan.extend_lease(line.handle);
    plan.tell(
        Node::Server(server),
        Body::Extend {
            handle: line.handle,
            version: line.version,
            end: Moment(until),
        },
    )?;
    Ok(())
}

/// Each reported lease gets a later end, where its primary asks for it and may have it.
pub fn extends_all<A: Allocator + Clone>(
    plan: &mut Plan<A>,
    server: ServerId,
    leases: &[LeaseLine],
) -> Result<(), PlanFault>
    ensures { OnOk result ((disk : LogDisk) → extends_all (doing disk plan.old) server.0 leases.now ≡ doing disk plan.new) }
{
    for line in leases {
        extends_row(plan, server, *line)?;
    }
    Ok(())
}
