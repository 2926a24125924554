//! Version numbers that take too long.

ghost use Rattle.std.specs.Prelude.{◌≡◌, ◌-◌, nat_lt, IfOk, OnOk};
ghost use Rattle.protocol.specs.Logged.{LogDisk};
ghost use Rattle.protocol.specs.MasterStep.{gives_up_attempts};
ghost use Rattle.master_plan.specs.Plans.{doing, known};
ghost use Rattle.master_reports.specs.Late.{late_attempts};

use gfs_types::no_memory::NoMemory;
use master_plan::plan::Plan;
use master_waiting::fault::PlanFault;
use master_waiting::waiting::VersionAttempt;
use std::alloc::Allocator;

/// A version number that is under way too long is given up.
pub fn gives_up_attempts<A: Allocator + Clone>(plan: &mut Plan<A>) -> Result<(), PlanFault>
    ensures { OnOk result ((disk : LogDisk) → gives_up_attempts (doing disk plan.old) ≡ doing disk plan.new) }
{
    let handles = late_attempts(plan)?;
    plan.remove_attempts(&handles);
    Ok(())
}

// The chunks whose version numbers are under way too long, in rising number.
fn late_attempts<A: Allocator + Clone>(plan: &Plan<A>) -> Result<Vec<u64>, NoMemory>
    ensures { IfOk result (λ v. v.items ≡ late_attempts (known plan.now)) }
{
    let mut late = Vec::new(plan.alloc());
    for (handle, attempt) in plan.attempts().iter() {
        if !is_in_time(plan, attempt) {
            late.push(*handle)?;
        }
    }
    Ok(late)
}

fn is_in_time<A: Allocator + Clone>(plan: &Plan<A>, attempt: &VersionAttempt) -> bool
    ensures { result ≡ nat_lt (plan.now.now - attempt.now.begun) plan.now.config.attempt_ms }
{
    plan.now().0.saturating_sub(attempt.begun().0) < plan.config().attempt_ms
}
