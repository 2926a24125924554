//! A server's report.

ghost use Rattle.std.specs.Prelude.{◌≡◌, OnOk};
ghost use Rattle.protocol.specs.Logged.{LogDisk};
ghost use Rattle.protocol.specs.MasterReports.{hears, learns_all, takes_report};
ghost use Rattle.master_plan.specs.Plans.{doing};

use crate::drops::drops_useless;
use crate::extends::extends_all;
use crate::learning::learns;
use gfs_types::ids::ServerId;
use master_plan::plan::Plan;
use master_waiting::fault::PlanFault;
use messages::message::ReplicaLine;
use messages::message_lists::{LeaseList, ReplicaList};
use operation_log::log::OperationLog;
use std::alloc::Allocator;

/// A Report: the server is present and holds what it reports. Replicas of no use are dropped, version numbers may be complete, and
/// leases go on.
pub fn takes_report<L: OperationLog, A: Allocator + Clone>(
    log: &L,
    plan: &mut Plan<A>,
    server: ServerId,
    replicas: &ReplicaList,
    leases: &LeaseList,
) -> Result<(), PlanFault>
    ensures { OnOk result (takes_report (doing (L.disk log.now) plan.old) server.0 replicas.now leases.now ≡ doing (L.disk log.now) plan.new) }
{
    let replicas = replicas.as_slice();
    hears(plan, server, replicas)?;
    drops_useless(plan, server, replicas)?;
    learns_all(log, plan, server, replicas)?;
    extends_all(plan, server, leases.as_slice())
}

// The server is present, and holds what it reports and nothing else.
fn hears<A: Allocator + Clone>(
    plan: &mut Plan<A>,
    server: ServerId,
    replicas: &[ReplicaLine],
) -> Result<(), PlanFault>
    ensures { OnOk result ((disk : LogDisk) → hears (doing disk plan.old) server.0 replicas.now ≡ doing disk plan.new) }
{
    plan.note_report(server, replicas)
}

// Version numbers may be complete with it. Looks at no replica where none is under way.
#[tactic(auto, using(crate::proofs::NoAttempts::learns_nothing))]
fn learns_all<L: OperationLog, A: Allocator + Clone>(
    log: &L,
    plan: &mut Plan<A>,
    server: ServerId,
    replicas: &[ReplicaLine],
) -> Result<(), PlanFault>
    ensures { OnOk result (learns_all (doing (L.disk log.now) plan.old) server.0 replicas.now ≡ doing (L.disk log.now) plan.new) }
{
    if plan.has_attempts() {
        learns_each(log, plan, server, replicas)
    } else {
        Ok(())
    }
}

fn learns_each<L: OperationLog, A: Allocator + Clone>(
    log: &L,
    plan: &mut Plan<A>,
    server: ServerId,
    replicas: &[ReplicaLine],
) -> Result<(), PlanFault>
    ensures { OnOk result (learns_all (doing (L.disk log.now) plan.old) server.0 replicas.now ≡ doing (L.disk log.now) plan.new) }
{
    for line in replicas {
        learns(log, plan, server, line.handle, line.version)?;
    }
    Ok(())
}
