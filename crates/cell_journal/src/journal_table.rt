//! The journal of a new cell.

ghost use Rattle.std.specs.Prelude.{◌≡◌, ◌∷◌, [], IfOk, IfErr, Some};
ghost use Rattle.cell_journal.specs.Identity.{Filled};
ghost use Rattle.cell_journal.specs.Rules.{first_view, IsJournalOf};

use crate::history::History;
use crate::identity::CellIdentity;
use crate::{JournalRule, JournalWriter, View};
use atomic_table::Table;
use gfs_types::no_memory::NoMemory;
use std::alloc::Global;

/// The table in which a cell's journal lies.
pub type JournalTable = Table<Option<History>, View, CellIdentity, JournalRule, Global>;

/// A table with a journal that has no entries yet, and the first writer at it, which writes for every node.
pub fn open(alloc: Global, history: History) -> Result<(JournalTable, JournalWriter), NoMemory>
    requires { history.entries ≡ [] }
    ensures table { IfOk result (λ t. (t.0.shared.table_id.words ≡ 1) × (t.0.shared.table_id.slots ≡ 1)) }
    ensures writer { IfOk result (λ t. (t.1.table_id ≡ t.0.shared.table_id) × (t.1.me ≡ (first_view history.cell, []))) }
{
    match open_or_back(alloc, history) {
        Ok(made) => Ok(made),
        Err(_) => Err(NoMemory),
    }
}

/// The same. Where there is no memory the journal comes back.
pub fn open_or_back(
    alloc: Global,
    history: History,
) -> Result<(JournalTable, JournalWriter), History>
    requires { history.entries ≡ [] }
    ensures table { IfOk result (λ t. (t.0.shared.table_id.words ≡ 1) × (t.0.shared.table_id.slots ≡ 1)) }
    ensures writer { IfOk result (λ t. (t.1.table_id ≡ t.0.shared.table_id) × (t.1.me ≡ (first_view history.cell, []))) }
    ensures back { IfErr result (λ h. h ≡ history) }
{
    let cell = history.cell();
    let mut slots = Vec::new(alloc);
    if let Err(refused) = slots.push(Some(history)) {
        return Err(only(refused.value));
    }
    match table_or_back(alloc, slots, &cell) {
        Ok(made) => Ok(made),
        Err(mut slots) => match slots.pop() {
            Some(slot) => Err(only(slot)),
            None => unreachable!(),
        },
    }
}

fn only(slot: Option<History>) -> History
    requires { (y : Filled) × (slot ≡ Some y) }
    ensures { slot ≡ Some result }
{
    match slot {
        Some(history) => history,
        None => unreachable!(),
    }
}

fn table_or_back(
    alloc: Global,
    slots: Vec<Option<History>>,
    cell: &CellIdentity,
) -> Result<(JournalTable, JournalWriter), Vec<Option<History>>>
    requires has { (y : Filled) × (slots.items ≡ Some y ∷ []) × (y.cell ≡ cell.now) × (y.entries ≡ []) }
    requires lawful { IsJournalOf cell.now [] }
    ensures table { IfOk result (λ t. (t.0.shared.table_id.words ≡ 1) × (t.0.shared.table_id.slots ≡ 1)) }
    ensures writer { IfOk result (λ t. (t.1.table_id ≡ t.0.shared.table_id) × (t.1.me ≡ (first_view cell.now, []))) }
    ensures back { IfErr result (λ v. v.items ≡ slots.items) }
{
    match Table::new(alloc, &[0], slots, cell) {
        Ok(made) => Ok(made),
        Err(refused) => Err(refused.slots),
    }
}
