//! Which steps the master takes near a counter's limit.

ghost use Rattle.std.specs.Prelude.{◌≡◌, ◌&&◌};
ghost use Rattle.std.specs.Option.{option_copied};
ghost use Rattle.protocol.specs.MasterLimits.{is_far, counts_of, counts_on, can_count};
ghost use Rattle.master_plan.specs.Plans.{known};
ghost use Rattle.master_cell.specs.Inputs.{input_of};

use gfs_types::ids::MAX_COUNTER;
use master_chunks::counting::counts_in;
use master_plan::plan::Plan;
use messages::message::{Body, Message};
use std::alloc::Allocator;

// More orders, and more files, than there are of one step in any memory.
const STEP_COUNTS: u64 = 281_474_976_710_656;

// Whether each counter that a step on this input may raise has room for it. Changes nothing.
#[tactic(auto, using(crate::proofs::Limits::counts_are))]
pub(crate) fn can_count<A: Allocator + Clone>(plan: &Plan<A>, message: Option<&Message>) -> bool
    ensures { result ≡ can_count (known plan.now) (input_of (option_copied message.entry)) }
{
    let next = plan.state().table().next_file();
    are_far(next.0, plan.order_count()) && counts_on(plan, message)
}

fn are_far(next_file: u64, order_count: u64) -> bool
    ensures { result ≡ (is_far next_file && is_far order_count) }
{
    is_far(next_file) && is_far(order_count)
}

fn is_far(counter: u64) -> bool
    ensures { result ≡ is_far counter }
{
    match counter.checked_add(STEP_COUNTS) {
        Some(raised) => raised <= MAX_COUNTER,
        None => false,
    }
}

fn counts_on<A: Allocator + Clone>(plan: &Plan<A>, message: Option<&Message>) -> bool
    ensures { result ≡ counts_on plan.now.config plan.now.logged (input_of (option_copied message.entry)) }
{
    match message {
        None => true,
        Some(message) => counts_of(plan, &message.body),
    }
}

fn counts_of<A: Allocator + Clone>(plan: &Plan<A>, body: &Body) -> bool
    ensures { result ≡ counts_of plan.now.config plan.now.logged body.now }
{
    match body {
        Body::Ask { file, wanted, .. } => counts_in(plan, *file, *wanted),
        _ => true,
    }
}
