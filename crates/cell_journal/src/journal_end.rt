//! The end of a running cell's journal.

ghost use Rattle.std.specs.Prelude.{◌≡◌, ◌∷◌, [], Some, IfSome, IfNone, true};
ghost use Rattle.gfs_types.specs.declared.ids.Node.{Node};
ghost use Rattle.cell_journal.specs.Identity.{Filled};
ghost use Rattle.cell_journal.specs.Rules.{Writes, IsJournalOf};
ghost use Rattle.cell_journal.specs.Writers.{IsAt, IsWaiting};

use crate::closed_history::ClosedHistory;
use crate::history::History;
use crate::history_end::close as close_history;
use crate::journal_lock::{acquire, release, shut};
use crate::{JournalWriter, SharedHistory};
use std::sync::Wait;
use std::thread;
use std::time::{Clock, Duration};

/// Closes the journal, once no step is under way. Nothing is added to it any more.
pub fn close<R: Wait + Clock>(
    rt: &R,
    shared: &SharedHistory,
    writer: &mut JournalWriter,
) -> ClosedHistory
    requires shared { IsAt shared.now.table_id writer.old.table_id }
    requires none { writer.old.me.1 ≡ [] }
    requires writes { (n : Node) × Writes writer.old.me.0 n }
    ensures cell { result.cell ≡ writer.old.me.0.of }
    ensures lawful { IsJournalOf result.cell result.entries }
    ensures over { result.is_over ≡ true }
{
    for _ in rt.forever() {
        if let Some(history) = try_close(rt, shared, writer) {
            return history;
        }
        thread::sleep(rt, Duration::from_millis(1));
    }
    unreachable!()
}

// Closes the journal, if no step is under way.
fn try_close(
    rt: &impl Wait,
    shared: &SharedHistory,
    writer: &mut JournalWriter,
) -> Option<ClosedHistory>
    requires shared { IsAt shared.now.table_id writer.old.table_id }
    requires none { writer.old.me.1 ≡ [] }
    requires writes { (n : Node) × Writes writer.old.me.0 n }
    ensures some { IfSome result (λ p. (p.cell ≡ writer.old.me.0.of) × IsJournalOf p.cell p.entries × (p.is_over ≡ true)) }
    ensures none { IfNone result (writer.new.table_id ≡ writer.old.table_id) }
    ensures waits { IfNone result (IsWaiting writer.old.me.0 writer.new.me) }
{
    if !acquire(rt, shared, writer) {
        return None;
    }
    if is_quiet_at(shared, writer) {
        shut(shared, writer);
        return Some(close_history(shared, writer));
    }
    release(shared, writer);
    None
}

fn is_quiet_at(shared: &SharedHistory, writer: &mut JournalWriter) -> bool
    requires shared { writer.old.table_id ≡ shared.now.table_id }
    requires has { (y : Filled) × (writer.old.me.1 ≡ (0, Some y) ∷ []) }
    ensures same { (writer.new.table_id ≡ writer.old.table_id) × (writer.new.id ≡ writer.old.id) × (writer.new.me ≡ writer.old.me) }
{
    is_quiet(writer.slot_mut(shared, 0))
}

// Whether no step is under way.
fn is_quiet(slot: &mut Option<History>) -> bool
    ensures { slot.new ≡ slot.old }
{
    match slot {
        Some(history) => history.reserved() == 0,
        None => true,
    }
}
