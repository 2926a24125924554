//! A call of a client, until it is answered.

ghost use Rattle.std.specs.Prelude.{◌≡◌, ◌++◌, ◌∷◌, [], Err, IfOk, IfErr};
ghost use Rattle.cell_seats.specs.Seen.{visible_of, IsFurther, HasSeen, ShowsAnswer, TookNone, StaysUnanswered, IsAnsweredCall, Asked as CallAsked, Answered as CallAnswered};

use crate::gate::OpenGate;
use crate::mailbox_wait::{FIRST_WAIT, input_within};
use crate::mailboxes::MailboxItem;
use crate::slot::{Slot, StepResult};
use crate::stepper::Stepper;
use cell_journal::Beginning;
use cell_journal::raised_entry::RaisedEntry;
use crossbeam_channel::Receiver;
use gfs_types::answer::Answer;
use gfs_types::call::Call;
use gfs_types::refusal::Refusal;
use std::sync::Wait;
use std::time::Clock;

/// An answer, and the history as it was then, with its length.
#[derive(Drop)]
pub struct AnsweredCall {
    pub answer: Answer,
    pub beginning: Beginning<RaisedEntry>,
    pub count: usize,
}

/// Why a call was refused by the cell itself, and, where clocks were kept, whether it stands in the journal.
#[derive(Clone, Copy)]
pub struct CallFault {
    pub refusal: Refusal,
    pub stands: bool,
}

/// Makes the call, and waits for its answer. A call that the cell itself refuses is not answered in the journal, but where clocks were not kept.
#[tactic(auto, using(crate::proofs::Shown::asked_answered, crate::proofs::Shown::answered_later, crate::proofs::Shown::further_trans, crate::proofs::Shown::unanswered_first, crate::proofs::Shown::unanswered_then))]
pub fn ask<R: Wait + Clock, N: Stepper + Drop>(
    rt: &R,
    slot: &mut Slot<N>,
    inbox: &Receiver<MailboxItem>,
    call: Call,
) -> Result<AnsweredCall, CallFault>
    ensures node { slot.new.node ≡ slot.old.node }
    ensures further { IsFurther slot.old.view slot.new.view }
    ensures shows { IfOk result (λ h. visible_of slot.new.view.mine ≡ visible_of slot.old.view.mine ++ CallAsked call ∷ CallAnswered h.answer ∷ []) }
    ensures seen { IfOk result (λ h. HasSeen slot.new.node slot.new.view h.beginning h.count) }
    ensures err { IfErr result (StaysUnanswered slot.old.view call slot.new.view) }
{
    match begin(rt, slot, call) {
        Ok(Some(answered)) => return Ok(answered),
        Ok(None) => {}
        Err(refusal) => {
            return Err(CallFault {
                refusal,
                stands: false,
            });
        }
    }
    let mut wait = FIRST_WAIT;
    for _ in rt.forever() {
        match next_step(rt, slot, inbox, &mut wait) {
            Ok(Some(answered)) => return Ok(answered),
            Ok(None) => {}
            Err(refusal) => {
                return Err(CallFault {
                    refusal,
                    stands: true,
                });
            }
        }
    }
    unreachable!()
}

// The call is made. It may be answered at once.
fn begin<R: Wait + Clock, N: Stepper + Drop>(
    rt: &R,
    slot: &mut Slot<N>,
    call: Call,
) -> Result<Option<AnsweredCall>, Refusal>
    ensures node { slot.new.node ≡ slot.old.node }
    ensures further { IsFurther slot.old.view slot.new.view }
    ensures ok { IfOk result (λ h. ShowsAnswer slot.new.node (visible_of slot.old.view.mine ++ CallAsked call ∷ []) slot.new.view h) }
    ensures err { IfErr result (TookNone slot.old.view slot.new.view) }
{
    answered_call(slot.call(rt, call)?)
}

// The client's next step.
fn next_step<R: Wait + Clock, N: Stepper + Drop>(
    rt: &R,
    slot: &mut Slot<N>,
    inbox: &Receiver<MailboxItem>,
    wait: &mut u64,
) -> Result<Option<AnsweredCall>, Refusal>
    ensures node { slot.new.node ≡ slot.old.node }
    ensures further { IsFurther slot.old.view slot.new.view }
    ensures ok { IfOk result (λ h. ShowsAnswer slot.new.node (visible_of slot.old.view.mine) slot.new.view h) }
    ensures err { IfErr result (TookNone slot.old.view slot.new.view) }
{
    let Some(input) = input_within(rt, inbox, wait) else {
        return Err(Refusal::Closed);
    };
    match slot.take(rt, input, &OpenGate) {
        Ok(taken) => answered_call(taken),
        // The message is lost.
        Err(Refusal::NoMemory | Refusal::Unknown) => Ok(None),
        Err(refusal) => Err(refusal),
    }
}

// What a step gave its client.
fn answered_call(taken: StepResult) -> Result<Option<AnsweredCall>, Refusal>
    ensures ok { IfOk result (λ h. IsAnsweredCall taken.answer taken.beginning taken.count h) }
    ensures err { IfErr result (λ refusal. taken.answer ≡ Err refusal) }
{
    let StepResult {
        answer,
        beginning,
        count,
    } = taken;
    match answer {
        Ok(Some(answer)) => Ok(Some(AnsweredCall {
            answer,
            beginning,
            count,
        })),
        Ok(None) => Ok(None),
        Err(refusal) => Err(refusal),
    }
}
