//! A server of a running cell, over a disk in memory.

ghost use Rattle.std.specs.Prelude.{◌≡◌, ◌≤◌, None, IsTrue};
ghost use Rattle.cell_journal.specs.Entries.{cause_of};
ghost use Rattle.cell_seats.specs.Slots.{StepsSo};
ghost use Rattle.protocol.specs.Tables.{moment_limit};
ghost use Rattle.protocol_journal.specs.Journal.{NodeState, may_take};
ghost use Rattle.running_nodes.specs.Standing.{ServerStands};

use crate::step_message::message_in;
use cell_journal::journal_entry::StepCause;
use cell_seats::stepper::{NodeStep, Stepper};
use gfs_types::call::Call;
use gfs_types::ids::Moment;
use messages::event::StepOut;
use protocol::seen::SeenList;
use protocol::step_outcome::{Outcome, no_output};
use server_cell::server_slot::ServerSlot;
use std::alloc::Global;

/// A server of a running cell. At a restart its disk stops, and it is opened over what that left.
pub struct RunningServer {
    pub alloc: Global,
    pub server: ServerSlot,
}

// Stands here, once, so that no crate above proves the drops of all that a server owns.
impl Drop for RunningServer {
    fn drop(self) {
        let Self {
            alloc: _alloc,
            server: _server,
        } = self;
    }
}

impl Stepper for RunningServer {
    ghost stands = { λ r s. ServerStands r.server s };

    fn may_take(&self, cause: &StepCause) -> bool {
        match cause {
            StepCause::Takes(_) => self.server.is_up(),
            StepCause::Restarts => true,
            StepCause::Calls(_) => false,
        }
    }

    fn step(&mut self, now: Moment, cause: &StepCause, call: Option<Call>) -> NodeStep {
        let _none = call;
        let (out, seen) = step_server(&mut self.server, self.alloc, now, cause);
        NodeStep {
            out,
            answer: None,
            seen,
        }
    }
}

// A step, which has no answer, and what was seen of it.
fn step_server(
    server: &mut ServerSlot,
    alloc: Global,
    now: Moment,
    cause: &StepCause,
) -> (StepOut, SeenList)
    requires moment { now.0 ≤ moment_limit }
    requires may { (s : NodeState) → ServerStands server.old s → IsTrue (may_take s (cause_of cause.now)) }
    ensures steps { (s : NodeState) → ServerStands server.old s → StepsSo s now.0 (cause_of cause.now) result.0 result.1 (ServerStands server.new) }
    ensures silent { result.0.answer ≡ None }
{
    match cause {
        StepCause::Takes(input) => {
            let Outcome {
                out,
                seen,
                cause: _,
            } = server.step(now, message_in(input));
            (out, seen)
        }
        StepCause::Restarts => (server.restart(now), SeenList::empty(alloc)),
        // It takes no call.
        StepCause::Calls(_) => (no_output(alloc), SeenList::empty(alloc)),
    }
}
