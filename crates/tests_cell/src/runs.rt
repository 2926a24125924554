//! Lists of events, by `World::run` and by `World::step`.

use crate::recorded::{Recorded, record_row};
use crate::rows::{CUT_PRIMARY, LOST_FORWARD, MISSING_MEMBER, PAD, Row, SNAPSHOT};
use cell_world::fault::RunFault;
use script::script_fault::ScriptFault;
use shell::making::{ScriptCell, new_cell};
use std::alloc::Global;

/// Whether a run of the events on a new cell has the answers that their steps had, and sends as many messages.
fn runs_alike(
    alloc: Global,
    cell: &mut ScriptCell<Global>,
    recorded: &Recorded,
) -> Result<bool, RunFault> {
    let answers = cell.world.run(alloc, recorded.events.as_slice())?;
    let is_same = answers.as_slice() == recorded.answers.as_slice();
    drop(answers);
    Ok(is_same && cell.world.message_count() == recorded.message_count())
}

/// The same of a row's events. What owns a cell has few ways out, and calls `drop` there: a drop at the end of a scope is proved anew at each place.
fn row_runs_alike(alloc: Global, row: &Row) -> Result<bool, ScriptFault> {
    let mut cell = new_cell(alloc, alloc, &row.options())?;
    let is_alike = match record_row(alloc, row) {
        Ok(Some(recorded)) => {
            let is_alike = matches!(runs_alike(alloc, &mut cell, &recorded), Ok(true));
            drop(recorded);
            is_alike
        }
        Ok(None) | Err(_) => false,
    };
    drop(cell);
    Ok(is_alike)
}

#[test]
fn a_run_has_the_answers_of_its_steps(rt: HostRuntime) {
    for row in [PAD, LOST_FORWARD, CUT_PRIMARY, SNAPSHOT, MISSING_MEMBER] {
        assert!(rt;
            matches!(row_runs_alike(rt.alloc(), &row), Ok(true)),
            "{}",
            row.script
        );
    }
}
