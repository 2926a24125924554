//! How a step logs a record.

ghost use Rattle.std.specs.Prelude.{◌≡◌, ◌&&◌, not, IfOk, OnOk};
ghost use Rattle.protocol.specs.LogSizes.{record_fits};
ghost use Rattle.protocol.specs.Logged.{after_record, AppendRecord, WriteCheckpoint};
ghost use Rattle.protocol.specs.Master.{fits, is_of_copy};
ghost use Rattle.master_plan.specs.Plans.{doing, appended, with_checkpoint};
ghost use Rattle.master_plan.specs.Logging.{was_logged, tried};

use crate::change::{PlannedChange, RecordList};
use crate::granted::doubt_granted;
use crate::plan::Plan;
use crate::sizes::{bytes_used, checkpoint_bytes};
use gfs_types::ids::Moment;
use log_records::record::Record;
use master_replay::checkpoint::checkpoint_items;
use master_replay::replay::replay_at;
use master_waiting::fault::PlanFault;
use master_waiting::still_waiting::still_waiting;
use master_waiting::waiting_concerned::{follow, moves, stays_known, touches};
use operation_log::log::OperationLog;
use operation_log::sizes::used_with;
use std::alloc::Allocator;

/// Logs a record, after a checkpoint where there is no room for it, and the state follows. False: there is no room even so, or the
/// checkpoint gave up the copy that the record is of.
pub fn logs<L: OperationLog, A: Allocator + Clone>(
    log: &L,
    plan: &mut Plan<A>,
    entry: Record,
) -> Result<bool, PlanFault>
    ensures logged { IfOk result (λ b. b ≡ was_logged (doing (L.disk log.now) plan.old) entry) }
    ensures goes { OnOk result (tried (doing (L.disk log.now) plan.old) entry ≡ doing (L.disk log.now) plan.new) }
{
    if has_room(log, plan, &entry)? {
        plan.append(entry)?;
        return Ok(true);
    }
    let items = RecordList::new(checkpoint_items(&plan.state)?);
    if checkpoint_bytes(plan.config.log_bytes, items.as_slice()).is_none() {
        return Ok(false);
    }
    let was_of_copy = plan.is_of_copy(&entry);
    plan.write_checkpoint(items)?;
    let has_room = has_room(log, plan, &entry)?;
    if !stands(has_room, was_of_copy) {
        return Ok(false);
    }
    plan.append(entry)?;
    Ok(true)
}

fn stands(has_room: bool, was_of_copy: bool) -> bool
    ensures { result ≡ (has_room && not was_of_copy) }
{
    has_room && !was_of_copy
}

// Whether a record fits once the changes so far are made.
fn has_room<L: OperationLog, A: Allocator + Clone>(
    log: &L,
    plan: &Plan<A>,
    entry: &Record,
) -> Result<bool, PlanFault>
    ensures { IfOk result (λ b. b ≡ fits (doing (L.disk log.now) plan.now) entry.now) }
{
    let used = bytes_used(log, plan.config.log_bytes, plan.changes.as_slice())?;
    Ok(used_with(plan.config.log_bytes, used, 5, entry).is_some())
}

impl<A: Allocator + Clone> Plan<A> {
    // A record is to be added, and the state follows.
    fn append(&mut self, entry: Record) -> Result<(), PlanFault>
        ensures { OnOk result (self.new ≡ appended self.old entry) }
    {
        let until = doubt_granted(self.whole_until, &mut self.doubted, &entry);
        self.whole_until = None;
        let is_moved = moves(&self.snapshots, &entry)?;
        let touched = touches(&self.state, &self.concerned_files, &entry, is_moved);
        let stays = stays_known(self.knows_concerned, touched);
        self.knows_concerned = false;
        let waiting = still_waiting(&self.state, self.all_wait_until, &entry, is_moved);
        self.all_wait_until = None;
        replay_at(&mut self.state, &entry, Moment(self.clock))?;
        let known = follow(
            &mut self.concerned_chunks,
            &self.concerned_files,
            &entry,
            stays,
        );
        self.changes.push(PlannedChange::Append(entry))?;
        self.knows_concerned = known;
        self.whole_until = until;
        self.all_wait_until = waiting;
        Ok(())
    }

    // A checkpoint is to be written, which gives up each copy under way.
    fn write_checkpoint(&mut self, items: RecordList) -> Result<(), PlanFault>
        ensures { OnOk result (self.new ≡ with_checkpoint self.old items) }
    {
        self.changes.push(PlannedChange::Checkpoint(items))?;
        let handles = self.state.copied_handles()?;
        self.give_up_copies(&handles)
    }

    // Whether a record is of a copy that is under way.
    fn is_of_copy(&self, entry: &Record) -> bool
        ensures { result ≡ is_of_copy self.now.logged entry.now }
    {
        match entry {
            Record::Issue { handle, .. } | Record::Grant { handle, .. } => {
                self.state.copy_under(*handle).is_some()
            }
            _ => false,
        }
    }
}
