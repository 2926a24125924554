//! Steps of the master.

ghost use Rattle.std.specs.Prelude.{◌≡◌, ◌≤◌, true};
ghost use Rattle.server_cell.specs.Inputs.{input_of};
ghost use Rattle.protocol.specs.Tables.{moment_limit};
ghost use Rattle.protocol.specs.World.{files_seen};
ghost use Rattle.cell_world.specs.Batches.{message_named};
ghost use Rattle.cell_world.specs.Steps.{MasterStepsSo};

use crate::master::CellMaster;
use crate::record::CellRecord;
use gfs_types::answer::Answer;
use gfs_types::ids::Moment;
use messages::event::StepOut;
use protocol::step_outcome::Outcome;

/// The master takes a step on the message of a number, or on a tick. For want of memory it goes down.
pub(crate) fn master_steps<M: CellMaster>(
    master: &mut M,
    kept: &mut CellRecord,
    given: Option<u64>,
    now: Moment,
) -> Option<Answer>
    requires moment { now.0 ≤ moment_limit }
    requires up { (M.state master.old).up ≡ true }
    ensures steps { MasterStepsSo (M.state master.old) now.0 (input_of (message_named kept.old.network.messages given)) kept.old result (M.state master.new) kept.new }
    ensures files { M.files master.new ≡ files_seen (M.state master.new) (M.files master.old) }
{
    if kept.reserve().is_err() {
        master.stop();
        return None;
    }
    let Outcome {
        out,
        seen,
        cause: _,
    } = master.step(now, kept.network.named(given));
    let StepOut { sent, answer, .. } = out;
    kept.takes(sent, seen);
    answer
}
