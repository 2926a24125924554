//! How a step ends: what was planned is made.

ghost use Rattle.std.specs.Prelude.{◌≡◌, ◌<◌, ◌*◌, ◌&&◌, nat_le, [], None};
ghost use Rattle.gfs_types.specs.Counters.{counter_limit};
ghost use Rattle.protocol.specs.MasterStep.{is_within_limits};
ghost use Rattle.master_plan.specs.Changes.{changes_of};
ghost use Rattle.master_plan.specs.Plans.{known};
ghost use Rattle.protocol.specs.declared.down_cause.DownCause.TheVariants as causes;
ghost use Rattle.master_cell.specs.Ends.{AreMade, step_out};

use crate::commit::commit;
use gfs_types::ids::{Handle, MAX_COUNTER};
use master_plan::change::PlannedChangeList;
use master_plan::plan::Plan;
use messages::event::StepOut;
use operation_log::log::OperationLog;
use protocol::down_cause::DownCause;
use protocol::step_outcome::Outcome;
use std::alloc::Allocator;

// Makes the changes of a plan on the log. False: a change failed, or a counter is past its limit, and the master is to go down.
pub(crate) fn makes<L: OperationLog, A: Allocator + Clone>(log: &mut L, plan: &mut Plan<A>) -> bool
    requires decided { L.under_way log.old ≡ [] }
    ensures made { AreMade (L.disk log.old) plan.old result (L.disk log.new) (L.under_way log.new) }
    ensures rest { plan.new ≡ record plan.old { changes = [] } }
{
    let changes = plan.take_changes();
    makes_all(log, plan, &changes)
}

// The same of changes that were taken out of the plan.
#[tactic(auto, using(crate::proofs::Steps::none_made))]
pub(crate) fn makes_all<L: OperationLog, A: Allocator + Clone>(
    log: &mut L,
    plan: &Plan<A>,
    changes: &PlannedChangeList,
) -> bool
    requires decided { L.under_way log.old ≡ [] }
    ensures { AreMade (L.disk log.old) (record plan.now { changes = changes_of changes.now }) result (L.disk log.new) (L.under_way log.new) }
{
    is_within_limits(plan) && commit(log, changes.as_slice()).is_ok()
}

// Why it is to go down, where its log's disk had failed so often before.
pub(crate) fn cause_since<L: OperationLog>(log: &L, before: u64) -> DownCause
    ensures device { result ≡ causes.Device → before < L.failed log.now }
    ensures room { result ≡ causes.NoRoom → ⊥ }
{
    if log.failures() > before {
        DownCause::Device
    } else {
        DownCause::Memory
    }
}

// What a step gives that went through, and what is seen of it, taken out of its plan.
pub(crate) fn outcome_of<A: Allocator + Clone>(plan: &mut Plan<A>) -> Outcome
    ensures out { result.out ≡ step_out plan.old }
    ensures seen { result.seen ≡ plan.old.seen }
    ensures cause { result.cause ≡ None }
    ensures rest { plan.new ≡ record plan.old { sent = []; seen = [] } }
{
    let sent = plan.take_sent();
    let out = StepOut {
        sent,
        answer: None,
        down: false,
    };
    Outcome {
        out,
        seen: plan.take_seen(),
        cause: None,
    }
}

// Whether no counter is past its limit.
#[tactic(auto, using(crate::proofs::Limits::limits_are))]
fn is_within_limits<A: Allocator + Clone>(plan: &Plan<A>) -> bool
    ensures { result ≡ is_within_limits (known plan.now) }
{
    let state = plan.state();
    let table = state.table();
    table.is_sound();
    are_within(state.epoch(), plan.order_count())
        && has_places(table.next_handle(), plan.config().chunk)
}

// The other counters are the table's, which keeps them within their limits.
fn are_within(epoch: u64, order_count: u64) -> bool
    ensures { result ≡ (nat_le epoch counter_limit && nat_le order_count counter_limit) }
{
    epoch <= MAX_COUNTER && order_count <= MAX_COUNTER
}

// Whether no place in a file is past the limit, where each chunk's index is below this handle.
fn has_places(next_handle: Handle, chunk: u32) -> bool
    ensures { result ≡ nat_le (next_handle.0 * chunk) counter_limit }
{
    match next_handle.0.checked_mul(u64::from(chunk)) {
        Some(end) => end <= MAX_COUNTER,
        None => false,
    }
}
