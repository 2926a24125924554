//! What a step is to do, and what is to be shown of the files after it.

ghost use Rattle.std.specs.Prelude.{◌≡◌, ◌≤◌, [], IfOk, OnOk};
ghost use Rattle.std.specs.Option.{option_copied};
ghost use Rattle.protocol.specs.Tables.{moment_limit};
ghost use Rattle.master_plan.specs.Changes.{changes_of};
ghost use Rattle.master_cell.specs.Copies.{with_lists};
ghost use Rattle.master_cell.specs.Shown.{shown_in};
ghost use Rattle.master_cell.specs.Drafts.{Drafts};
ghost use Rattle.master_cell.specs.Inputs.{input_of};

use crate::changed_files::FilesBefore;
use crate::copy::FileCopy;
use crate::planned::plan_step;
use crate::shown::ShownFiles;
use gfs_types::ids::Moment;
use master_plan::change::PlannedChangeList;
use master_plan::plan::Plan;
use master_waiting::fault::PlanFault;
use messages::message::Message;
use operation_log::log::OperationLog;
use std::alloc::Allocator;

/// The changes of the log that a step makes, and the lists of the files that it changes.
#[derive(Drop)]
pub(crate) struct Draft {
    pub(crate) changes: PlannedChangeList,
    pub(crate) copies: Vec<FileCopy>,
}

// A step on a message, or on a tick. The chunks of all files before it are shown.
#[tactic(auto, using(crate::proofs::Drafting::drafted))]
pub(crate) fn drafts<L: OperationLog, A: Allocator + Clone>(
    log: &L,
    plan: &mut Plan<A>,
    now: Moment,
    message: Option<&Message>,
    shown: &mut ShownFiles,
) -> Result<Draft, PlanFault>
    requires moment { now.0 ≤ moment_limit }
    requires shown { shown_in shown.old ≡ plan.old.logged.table.files }
    ensures drafts { IfOk result (λ d. Drafts (L.disk log.now) plan.old now.0 (input_of (option_copied message.entry)) (changes_of d.changes) plan.new) }
    ensures copies { IfOk result (λ d. with_lists (shown_in shown.new) d.copies.items ≡ plan.new.logged.table.files) }
    ensures settled { OnOk result (shown.new.late.items ≡ []) }
    ensures shown { shown_in shown.new ≡ shown_in shown.old }
{
    let alloc = plan.alloc();
    shown.settle(alloc)?;
    let before = FilesBefore::of(alloc, plan.state())?;
    plan_step(log, plan, now, message)?;
    let changes = plan.take_changes();
    let copies = before.changed(alloc, plan.state(), changes.as_slice())?;
    Ok(Draft { changes, copies })
}
