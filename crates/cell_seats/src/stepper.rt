//! What a running cell asks of its nodes.

ghost use Rattle.std.specs.Prelude.{◌≡◌, ◌≤◌, IsTrue};
ghost use Rattle.protocol.specs.Tables.{moment_limit};
ghost use Rattle.protocol_journal.specs.Journal.{NodeState, may_take};
ghost use Rattle.cell_journal.specs.Entries.{cause_of};
ghost use Rattle.cell_seats.specs.Slots.{StepsSo, IsCopyOf};

use cell_journal::journal_entry::StepCause;
use gfs_types::answer::Answer;
use gfs_types::call::Call;
use gfs_types::ids::Moment;
use messages::event::StepOut;
use protocol::seen::SeenList;

/// What a step gave, with a copy of its answer, and what an observer sees of it.
#[derive(Drop)]
pub struct NodeStep {
    pub out: StepOut,
    pub answer: Option<Answer>,
    pub seen: SeenList,
}

/// A node that takes steps.
pub trait Stepper {
    /// The states of the definitions for which it stands.
    ghost stands: { Self → NodeState → Type 0 };

    /// Whether it takes a step on this.
    fn may_take(&self, cause: &StepCause) -> bool
        ensures { (s : NodeState) → stands self.now s → result ≡ may_take s (cause_of cause.now) };

    /// A step, at a moment that there is. A step on a call is given a copy of the call. Where there is no memory for the copy of its answer
    /// the node goes down in that step, which then answers nothing.
    fn step(&mut self, now: Moment, cause: &StepCause, call: Option<Call>) -> NodeStep
        requires moment { now.0 ≤ moment_limit }
        requires may { (s : NodeState) → stands self.old s → IsTrue (may_take s (cause_of cause.now)) }
        requires copy { IsCopyOf (cause_of cause.now) call }
        ensures steps { (s : NodeState) → stands self.old s → StepsSo s now.0 (cause_of cause.now) result.out result.seen (stands self.new) }
        ensures answer { result.answer ≡ result.out.answer };
}
