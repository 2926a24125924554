//! The tick.

ghost use Rattle.std.specs.Prelude.{◌≡◌, OnOk};
ghost use Rattle.protocol.specs.MasterStep.{master_ticks};
ghost use Rattle.master_plan.specs.Plans.{doing};

use crate::attempts::gives_up_attempts;
use crate::clones::clones_next;
use crate::copies::gives_up_lost_copies;
use crate::expiry::expires_old;
use master_plan::plan::Plan;
use master_waiting::fault::PlanFault;
use operation_log::log::OperationLog;
use std::alloc::Allocator;

/// A tick: version numbers and copies that take too long are given up, old files are collected, and one clone is ordered, if any.
pub fn master_ticks<L: OperationLog, A: Allocator + Clone>(
    log: &L,
    plan: &mut Plan<A>,
) -> Result<(), PlanFault>
    ensures { OnOk result (master_ticks (doing (L.disk log.now) plan.old) ≡ doing (L.disk log.now) plan.new) }
{
    gives_up_attempts(plan)?;
    gives_up_lost_copies(plan)?;
    expires_old(log, plan)?;
    clones_next(plan)
}
