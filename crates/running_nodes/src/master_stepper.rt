//! The master of a running cell.

ghost use Rattle.std.specs.Prelude.{◌≡◌, ◌≤◌, None, IsTrue};
ghost use Rattle.protocol.specs.Tables.{moment_limit};
ghost use Rattle.protocol_journal.specs.Journal.{NodeState, may_take};
ghost use Rattle.cell_journal.specs.Entries.{cause_of};
ghost use Rattle.cell_seats.specs.Slots.{StepsSo};
ghost use Rattle.running_nodes.specs.Standing.{MasterStands};

use crate::step_message::message_in;
use cell_journal::journal_entry::StepCause;
use cell_seats::stepper::{NodeStep, Stepper};
use cell_world::master::{CellMaster, RestartedMaster};
use gfs_types::call::Call;
use gfs_types::ids::Moment;
use messages::event::StepOut;
use protocol::seen::SeenList;
use protocol::step_outcome::{Outcome, no_output};
use std::alloc::Global;

/// A master that takes steps.
#[derive(Drop)]
pub struct MasterNode<M: CellMaster + Drop> {
    pub alloc: Global,
    pub master: M,
}

impl<M: RestartedMaster + Drop> Stepper for MasterNode<M> {
    ghost stands = { λ n s. MasterStands (M.state n.master) s };

    fn may_take(&self, cause: &StepCause) -> bool {
        match cause {
            StepCause::Takes(_) => self.master.is_up(),
            StepCause::Restarts => true,
            StepCause::Calls(_) => false,
        }
    }

    fn step(&mut self, now: Moment, cause: &StepCause, call: Option<Call>) -> NodeStep {
        let _none = call;
        let (out, seen) = step_master(&mut self.master, self.alloc, now, cause);
        NodeStep {
            out,
            answer: None,
            seen,
        }
    }
}

// A step, which has no answer, and what was seen of it.
fn step_master<M: RestartedMaster + Drop>(
    master: &mut M,
    alloc: Global,
    now: Moment,
    cause: &StepCause,
) -> (StepOut, SeenList)
    requires moment { now.0 ≤ moment_limit }
    requires may { (s : NodeState) → MasterStands (M.state master.old) s → IsTrue (may_take s (cause_of cause.now)) }
    ensures steps { (s : NodeState) → MasterStands (M.state master.old) s → StepsSo s now.0 (cause_of cause.now) result.0 result.1 (MasterStands (M.state master.new)) }
    ensures silent { result.0.answer ≡ None }
{
    match cause {
        StepCause::Takes(input) => {
            let Outcome {
                out,
                seen,
                cause: _,
            } = master.step(now, message_in(input));
            (out, seen)
        }
        StepCause::Restarts => (master.restart(now), SeenList::empty(alloc)),
        // It takes no call.
        StepCause::Calls(_) => (no_output(alloc), SeenList::empty(alloc)),
    }
}
