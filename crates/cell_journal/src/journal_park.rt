//! Parks a running cell's journal.

ghost use Rattle.std.specs.Prelude.{◌≡◌, ◌∷◌, [], Some, IfSome, IfNone, length, true};
ghost use Rattle.gfs_types.specs.declared.ids.Node.{Node};
ghost use Rattle.protocol_journal.specs.Journal.{sent_after};
ghost use Rattle.cell_journal.specs.Identity.{Filled};
ghost use Rattle.cell_journal.specs.Log.{listed};
ghost use Rattle.cell_journal.specs.Rules.{Writes};
ghost use Rattle.cell_journal.specs.WholeHistories.{history_of, whole_of};
ghost use Rattle.cell_journal.specs.Writers.{IsAt, IsWaiting, IsParkedAt, HasOwn};

use crate::history::History;
use crate::history_end::park as park_history;
use crate::journal_lock::{acquire, release, shut};
use crate::parked_history::ParkedHistory;
use crate::{JournalWriter, SharedHistory};
use std::sync::Wait;
use std::thread;
use std::time::{Clock, Duration};

/// Parks the journal, once no step is under way and the cell's whole history has so many entries. Nothing is added to this journal any more.
#[tactic(auto, using(crate::proofs::WriterSteps::has_own))]
pub fn park<R: Wait + Clock>(
    rt: &R,
    shared: &SharedHistory,
    writer: &mut JournalWriter,
    count: usize,
) -> ParkedHistory
    requires shared { IsAt shared.now.table_id writer.old.table_id }
    requires none { writer.old.me.1 ≡ [] }
    requires writes { (n : Node) × Writes writer.old.me.0 n }
    ensures parked { IsParkedAt writer.old.me.0.of count result.history }
    ensures list { result.list ≡ listed result.history.cell.name (whole_of result.history) }
    ensures own { HasOwn writer.old.me.0 result.history }
    ensures sent { result.sent ≡ length (sent_after [] (whole_of result.history)) }
{
    for _ in rt.forever() {
        if let Some(history) = try_park(rt, shared, writer, count) {
            return history;
        }
        thread::sleep(rt, Duration::from_millis(1));
    }
    unreachable!()
}

// Parks the journal, if no step is under way and there are so many entries.
fn try_park(
    rt: &impl Wait,
    shared: &SharedHistory,
    writer: &mut JournalWriter,
    count: usize,
) -> Option<ParkedHistory>
    requires shared { IsAt shared.now.table_id writer.old.table_id }
    requires none { writer.old.me.1 ≡ [] }
    requires writes { (n : Node) × Writes writer.old.me.0 n }
    ensures some { IfSome result (λ p. IsParkedAt writer.old.me.0.of count p.history) }
    ensures list { IfSome result (λ p. p.list ≡ listed p.history.cell.name (whole_of p.history)) }
    ensures own { IfSome result (λ p. HasOwn writer.old.me.0 p.history) }
    ensures sent { IfSome result (λ p. p.sent ≡ length (sent_after [] (whole_of p.history))) }
    ensures none { IfNone result (writer.new.table_id ≡ writer.old.table_id) }
    ensures waits { IfNone result (IsWaiting writer.old.me.0 writer.new.me) }
{
    if !acquire(rt, shared, writer) {
        return None;
    }
    if is_ready_at(shared, writer, count) {
        shut(shared, writer);
        return Some(park_history(shared, writer));
    }
    release(shared, writer);
    None
}

fn is_ready_at(shared: &SharedHistory, writer: &mut JournalWriter, count: usize) -> bool
    requires shared { writer.old.table_id ≡ shared.now.table_id }
    requires has { (y : Filled) × (writer.old.me.1 ≡ (0, Some y) ∷ []) }
    ensures same { (writer.new.table_id ≡ writer.old.table_id) × (writer.new.id ≡ writer.old.id) × (writer.new.me ≡ writer.old.me) }
    ensures ready { result ≡ true → (y : Filled) → writer.old.me.1 ≡ (0, Some y) ∷ [] → length (history_of y.cell y.entries) ≡ count }
{
    is_ready(writer.slot_mut(shared, 0), count)
}

// Whether no step is under way and there are so many entries.
fn is_ready(slot: &mut Option<History>, count: usize) -> bool
    ensures same { slot.new ≡ slot.old }
    ensures ready { result ≡ true → (y : Filled) → slot.old ≡ Some y → length (history_of y.cell y.entries) ≡ count }
{
    match slot {
        Some(history) => history.reserved() == 0 && history.whole_len() == count,
        None => false,
    }
}
