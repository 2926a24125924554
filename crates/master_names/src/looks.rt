//! Calls that change nothing.

ghost use Rattle.std.specs.Prelude.{◌≡◌, IfOk, OnOk};
ghost use Rattle.relaxed_file.specs.NameStep.{outcome_by};
ghost use Rattle.protocol.specs.Logged.{LogDisk};
ghost use Rattle.protocol.specs.MasterNames.{reply_by, master_refusal, takes_look};
ghost use Rattle.master_plan.specs.Plans.{doing, known};

use crate::answers::answer_of;
use crate::locks::is_busy;
use crate::refusals::master_refusal;
use gfs_types::call::Call;
use gfs_types::ids::Node;
use gfs_types::no_memory::NoMemory;
use master_plan::plan::Plan;
use master_replay::lists::list;
use master_waiting::fault::PlanFault;
use messages::message::{Body, NameReply};
use std::alloc::Allocator;

/// A Look, which changes nothing.
pub fn takes_look<A: Allocator + Clone>(
    plan: &mut Plan<A>,
    client: Node,
    number: u64,
    call: &Call,
) -> Result<(), PlanFault>
    ensures { OnOk result ((disk : LogDisk) → takes_look (doing disk plan.old) client number call.now ≡ doing disk plan.new) }
{
    let reply = reply_to(plan, call)?;
    plan.tell(
        client,
        Body::Named {
            call_number: number,
            reply,
        },
    )
}

#[tactic(auto, using(crate::proofs::Refused::refusal_alike))]
fn reply_to<A: Allocator + Clone>(plan: &Plan<A>, call: &Call) -> Result<NameReply, NoMemory>
    ensures { IfOk result (λ r. r ≡ reply_by plan.now.logged.table (outcome_by plan.now.logged.names call.now (master_refusal (known plan.now) call.now))) }
{
    match call {
        Call::Open(path) => {
            let is_busy = is_busy(plan, call)?;
            plan.state().open(path, is_busy)
        }
        Call::List(path) => {
            let is_busy = is_busy(plan, call)?;
            list(plan.state(), path, is_busy)
        }
        _ => {
            let refusal = master_refusal(plan, call)?;
            Ok(NameReply::Answered(answer_of(refusal)))
        }
    }
}
