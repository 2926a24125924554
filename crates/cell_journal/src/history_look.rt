//! A look of a node's writer at the whole history.

ghost use Rattle.std.specs.Prelude.{◌≡◌, ◌∷◌, [], IfSome, Some, length};
ghost use Rattle.cell_journal.specs.Log.{listed};
ghost use Rattle.cell_journal.specs.Identity.{Filled};
ghost use Rattle.cell_journal.specs.WholeHistories.{history_of};
ghost use Rattle.cell_journal.specs.Writers.{IsAt, IsNodeWriter, IsLater, HasLooked};

use crate::history::History;
use crate::identity::CellIdentity;
use crate::journal_lock::{acquire, release};
use crate::raised_entry::RaisedEntry;
use crate::{Beginning, JournalWriter, SharedHistory};
use gfs_types::ids::Node;
use std::sync::Wait;

/// Whose history was seen, all of it as it was then, and its length.
#[derive(Drop)]
pub struct HistoryLook {
    pub cell: CellIdentity,
    pub beginning: Beginning<RaisedEntry>,
    pub count: usize,
}

/// Looks at the journal, which stays as it is. None: it is gone.
pub fn look(
    rt: &impl Wait,
    shared: &SharedHistory,
    writer: &mut JournalWriter,
    node: Node,
) -> Option<HistoryLook>
    requires shared { IsAt shared.now.table_id writer.old.table_id }
    requires writer { IsNodeWriter node writer.old.me }
    ensures same { (writer.new.table_id ≡ writer.old.table_id) × (writer.new.id ≡ writer.old.id) }
    ensures writer { IsNodeWriter node writer.new.me }
    ensures later { IsLater writer.old.me.0 writer.new.me.0 }
    ensures some { IfSome result (λ l. HasLooked node writer.new.me.0 l) }
{
    let _node = node;
    if !acquire(rt, shared, writer) {
        return None;
    }
    let seen = look_at(shared, writer);
    release(shared, writer);
    Some(seen)
}

fn look_at(shared: &SharedHistory, writer: &mut JournalWriter) -> HistoryLook
    requires shared { writer.old.table_id ≡ shared.now.table_id }
    requires has { (y : Filled) × (writer.old.me.1 ≡ (0, Some y) ∷ []) }
    ensures same { (writer.new.table_id ≡ writer.old.table_id) × (writer.new.id ≡ writer.old.id) × (writer.new.me ≡ writer.old.me) }
    ensures cell { (y : Filled) → writer.old.me.1 ≡ (0, Some y) ∷ [] → result.cell ≡ y.cell }
    ensures beginning { (y : Filled) → writer.old.me.1 ≡ (0, Some y) ∷ [] → result.beginning ≡ listed y.cell.name (history_of y.cell y.entries) }
    ensures count { (y : Filled) → writer.old.me.1 ≡ (0, Some y) ∷ [] → result.count ≡ length (history_of y.cell y.entries) }
{
    look_in(writer.slot_mut(shared, 0))
}

fn look_in(slot: &mut Option<History>) -> HistoryLook
    requires { (y : Filled) × (slot.old ≡ Some y) }
    ensures same { slot.new ≡ slot.old }
    ensures cell { (y : Filled) → slot.old ≡ Some y → result.cell ≡ y.cell }
    ensures beginning { (y : Filled) → slot.old ≡ Some y → result.beginning ≡ listed y.cell.name (history_of y.cell y.entries) }
    ensures count { (y : Filled) → slot.old ≡ Some y → result.count ≡ length (history_of y.cell y.entries) }
{
    match slot {
        Some(history) => HistoryLook {
            cell: history.cell(),
            beginning: history.beginning(),
            count: history.whole_len(),
        },
        None => unreachable!(),
    }
}
