//! The records of name calls, and their answers.

ghost use Rattle.std.specs.Prelude.{◌≡◌, List, Bool, Some, OnOk};
ghost use Rattle.gfs_types.specs.declared.refusal.Refusal.TheVariants.{NamesFull};
ghost use Rattle.protocol.specs.MasterSnapshots.{reply_of, settles_name, refuses_name};
ghost use Rattle.master_names.specs.Doing.{answered, named, Changes};

use gfs_types::answer::Answer;
use gfs_types::ids::{ClientId, Node};
use gfs_types::refusal::Refusal;
use log_records::record::Record;
use master_plan::logging::logs;
use master_plan::plan::Plan;
use master_waiting::fault::PlanFault;
use messages::message::{Body, NameReply};
use operation_log::log::OperationLog;
use std::alloc::Allocator;

// The answer to a changing name call.
pub(crate) fn answers_name<A: Allocator + Clone>(
    plan: &mut Plan<A>,
    client: ClientId,
    number: u64,
    refusal: Option<Refusal>,
) -> Result<(), PlanFault>
    ensures { OnOk result (plan.new ≡ named plan.old client.0 number refusal) }
{
    plan.tell(
        Node::Client(client),
        Body::Named {
            call_number: number,
            reply: NameReply::Answered(answer_of(refusal)),
        },
    )
}

pub(crate) fn answer_of(refusal: Option<Refusal>) -> Answer
    ensures { result ≡ reply_of refusal }
{
    match refusal {
        None => Answer::Done,
        Some(refusal) => Answer::Refused(refusal),
    }
}

// The record of a name call is logged, and then the call is answered.
#[tactic(auto, using(crate::proofs::Parts::settles, crate::proofs::Parts::settles_not))]
pub(crate) fn settles_name<L: OperationLog, A: Allocator + Clone>(
    log: &L,
    plan: &mut Plan<A>,
    client: ClientId,
    number: u64,
    entry: Record,
    refusal: Option<Refusal>,
) -> Result<(), PlanFault>
    ensures { OnOk result ((rest : List Bool) → settles_name (answered (L.disk log.now) plan.old rest) client.0 number entry refusal ≡ answered (L.disk log.now) plan.new rest) }
{
    if !logs(log, plan, entry)? {
        return Ok(());
    }
    answers_name(plan, client, number, refusal)
}

pub(crate) fn refuses_name<L: OperationLog, A: Allocator + Clone>(
    log: &L,
    plan: &mut Plan<A>,
    client: ClientId,
    number: u64,
    refusal: Refusal,
) -> Result<(), PlanFault>
    ensures { OnOk result ((rest : List Bool) → refuses_name (answered (L.disk log.now) plan.old rest) client.0 number refusal ≡ answered (L.disk log.now) plan.new rest) }
{
    let entry = Record::Refused {
        client,
        call: number,
        refusal,
    };
    settles_name(log, plan, client, number, entry, Some(refusal))
}

// The record of a call, or that the names have no room, is logged and answered.
#[tactic(auto, using(crate::proofs::Parts::changes, crate::proofs::Parts::changes_not))]
pub(crate) fn changes_names<L: OperationLog, A: Allocator + Clone>(
    log: &L,
    plan: &mut Plan<A>,
    client: ClientId,
    number: u64,
    has_room: bool,
    entry: Record,
) -> Result<(), PlanFault>
    ensures { OnOk result (Changes (L.disk log.now) client.0 number entry plan.old plan.new) }
{
    if !has_room {
        return refuses_name(log, plan, client, number, Refusal::NamesFull);
    }
    settles_name(log, plan, client, number, entry, None)
}
