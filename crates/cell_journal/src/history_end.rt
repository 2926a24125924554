//! The end of a journal.

ghost use Rattle.std.specs.Prelude.{◌≡◌, ◌∷◌, [], length, Some, true, false};
ghost use Rattle.protocol_journal.specs.Journal.{sent_after};
ghost use Rattle.cell_journal.specs.Identity.{Filled, closed};
ghost use Rattle.cell_journal.specs.Log.{listed};
ghost use Rattle.cell_journal.specs.WholeHistories.{history_of};

use crate::closed_history::ClosedHistory;
use crate::history::History;
use crate::parked_history::ParkedHistory;
use crate::{JournalWriter, SharedHistory};

/// Takes out the journal that the writer has.
pub(crate) fn take_out(shared: &SharedHistory, writer: &mut JournalWriter) -> Option<History>
    requires shared { writer.old.table_id ≡ shared.now.table_id }
    requires has { (y : Filled) × (writer.old.me.1 ≡ (0, Some y) ∷ []) }
    ensures { (y : Filled) → writer.old.me.1 ≡ (0, Some y) ∷ [] → result ≡ Some y }
{
    shared.exchange(writer, 0, None)
}

/// Closes the journal that the writer has. It never comes back, so no entry follows.
pub fn close(shared: &SharedHistory, writer: &mut JournalWriter) -> ClosedHistory
    requires shared { writer.old.table_id ≡ shared.now.table_id }
    requires has { (y : Filled) × (writer.old.me.1 ≡ (0, Some y) ∷ []) }
    ensures { (y : Filled) → writer.old.me.1 ≡ (0, Some y) ∷ [] → result ≡ closed y.cell y.entries true }
{
    match take_out(shared, writer) {
        Some(history) => history.close(),
        None => unreachable!(),
    }
}

/// Parks the journal that the writer has. It never comes back to this table, so no entry follows in it.
pub fn park(shared: &SharedHistory, writer: &mut JournalWriter) -> ParkedHistory
    requires shared { writer.old.table_id ≡ shared.now.table_id }
    requires has { (y : Filled) × (writer.old.me.1 ≡ (0, Some y) ∷ []) }
    ensures journal { (y : Filled) → writer.old.me.1 ≡ (0, Some y) ∷ [] → result.history ≡ closed y.cell y.entries false }
    ensures list { (y : Filled) → writer.old.me.1 ≡ (0, Some y) ∷ [] → result.list ≡ listed y.cell.name (history_of y.cell y.entries) }
    ensures sent { (y : Filled) → writer.old.me.1 ≡ (0, Some y) ∷ [] → result.sent ≡ length (sent_after [] (history_of y.cell y.entries)) }
{
    match take_out(shared, writer) {
        Some(history) => history.park(),
        None => unreachable!(),
    }
}
