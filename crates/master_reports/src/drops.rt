//! Replicas that are of no use (section 4.5).

ghost use Rattle.std.specs.Prelude.{◌≡◌, OnOk};
ghost use Rattle.protocol.specs.Logged.{LogDisk};
ghost use Rattle.messages.specs.declared.message.Body.TheVariants as body;
ghost use Rattle.protocol.specs.Master.{orders};
ghost use Rattle.protocol.specs.MasterReports.{drops_useless};
ghost use Rattle.master_reports.specs.Drops.{orders_drops};
ghost use Rattle.master_plan.specs.Plans.{doing};

use gfs_types::ids::{Node, ServerId};
use master_plan::plan::Plan;
use master_waiting::fault::PlanFault;
use messages::message::{Body, ReplicaLine};
use stale_collect::drop_order::DropOrder;
use stale_collect::reply::reply;
use std::alloc::Allocator;

/// A Drop for each reported replica that is unknown or older than the granted version.
pub fn drops_useless<A: Allocator + Clone>(
    plan: &mut Plan<A>,
    server: ServerId,
    replicas: &[ReplicaLine],
) -> Result<(), PlanFault>
    ensures { OnOk result ((disk : LogDisk) → drops_useless (doing disk plan.old) server.0 replicas.now ≡ doing disk plan.new) }
{
    let drops = reply(plan.alloc(), replicas, plan.state().table())?;
    orders_drops(plan, server, &drops)
}

fn orders_drops<A: Allocator + Clone>(
    plan: &mut Plan<A>,
    server: ServerId,
    drops: &[DropOrder],
) -> Result<(), PlanFault>
    ensures { OnOk result ((disk : LogDisk) → orders_drops (doing disk plan.old) server.0 drops.now ≡ doing disk plan.new) }
{
    for line in drops {
        orders_drop(plan, server, *line)?;
    }
    Ok(())
}

fn orders_drop<A: Allocator + Clone>(
    plan: &mut Plan<A>,
    server: ServerId,
    line: DropOrder,
) -> Result<(), PlanFault>
    ensures { OnOk result ((disk : LogDisk) → orders (doing disk plan.old) server.0 (λ order. body.Drop order line.handle line.version) ≡ doing disk plan.new) }
{
    let order = plan.next_order()?;
    plan.tell(
        Node::Server(server),
        Body::Drop {
            order,
            handle: line.handle,
            version: line.version,
        },
    )
}
