//! A node's next step goes into the journal.

ghost use Rattle.std.specs.Prelude.{◌≡◌, ◌<◌, ◌≤◌, ◌-◌, ◌++◌, ◌∷◌, [], Some, length};
ghost use Rattle.protocol_journal.specs.Journal.{sent_after};
ghost use Rattle.cell_journal.specs.Log.{listed};
ghost use Rattle.cell_journal.specs.Clocks.{are_clocks_kept};
ghost use Rattle.cell_journal.specs.Identity.{Filled, filled};
ghost use Rattle.cell_journal.specs.Rules.{IsSame, IsStepOf, gave};
ghost use Rattle.cell_journal.specs.WholeHistories.{history_of};

use crate::history::History;
use crate::journal_entry::JournalEntry;
use crate::journal_steps::give_extended;
use crate::raised_entry::RaisedEntry;
use crate::{Beginning, JournalWriter, SharedHistory};

/// The whole history as it is once a step was added, its length, how many messages were sent in the journal before, and whether clocks were
/// kept.
#[derive(Drop)]
pub struct ExtendedHistory {
    pub beginning: Beginning<RaisedEntry>,
    pub count: usize,
    pub sent_before: u128,
    pub are_clocks_kept: bool,
}

/// What comes of adding a step: the history as it was then, and the table's word that was found.
#[derive(Drop)]
pub struct AddedStep {
    pub extended: ExtendedHistory,
    pub found: u64,
}

fn push(slot: &mut Option<History>, entry: JournalEntry) -> ExtendedHistory
    requires { (y : Filled) × (slot.old ≡ Some y) × (0 < y.reserved) }
    ensures slot { (y : Filled) → slot.old ≡ Some y → slot.new ≡ Some (filled y.cell (y.entries ++ entry ∷ []) (y.reserved - 1)) }
    ensures beginning { (y : Filled) → slot.old ≡ Some y → result.beginning ≡ listed y.cell.name (history_of y.cell (y.entries ++ entry ∷ [])) }
    ensures count { (y : Filled) → slot.old ≡ Some y → result.count ≡ length (history_of y.cell (y.entries ++ entry ∷ [])) }
    ensures sent { (y : Filled) → slot.old ≡ Some y → result.sent_before ≡ length (sent_after [] y.entries) }
    ensures clocks { (y : Filled) → slot.old ≡ Some y → result.are_clocks_kept ≡ are_clocks_kept y.cell (history_of y.cell (y.entries ++ entry ∷ [])) }
{
    match slot {
        Some(history) => {
            let sent_before = history.message_count();
            history.push(entry);
            ExtendedHistory {
                beginning: history.beginning(),
                count: history.whole_len(),
                sent_before,
                are_clocks_kept: history.are_clocks_kept(),
            }
        }
        None => unreachable!(),
    }
}

/// Adds the next step of the writer's own node, for which there is room, and gives the journal back.
pub fn add(shared: &SharedHistory, writer: &mut JournalWriter, entry: JournalEntry) -> AddedStep
    requires shared { (shared.now.table_id.words ≡ 1) × (shared.now.table_id.slots ≡ 1) × (writer.old.table_id ≡ shared.now.table_id) }
    requires has { (y : Filled) × (writer.old.me.1 ≡ (0, Some y) ∷ []) × IsSame writer.old.me.0 y × (writer.old.me.0.found ≡ y.reserved) }
    requires room { (0 < writer.old.me.0.rooms) × (writer.old.me.0.rooms ≤ writer.old.me.0.found) }
    requires step { IsStepOf writer.old.me.0 entry }
    ensures same { (writer.new.table_id ≡ writer.old.table_id) × (writer.new.id ≡ writer.old.id) }
    ensures gave { (y : Filled) → writer.old.me.1 ≡ (0, Some y) ∷ [] → writer.new.me ≡ (gave writer.old.me.0 (filled y.cell (y.entries ++ entry ∷ []) (y.reserved - 1)), []) }
    ensures beginning { result.extended.beginning ≡ listed writer.old.me.0.of.name (history_of writer.old.me.0.of (writer.old.me.0.seen ++ entry ∷ [])) }
    ensures count { result.extended.count ≡ length (history_of writer.old.me.0.of (writer.old.me.0.seen ++ entry ∷ [])) }
    ensures clocks { result.extended.are_clocks_kept ≡ are_clocks_kept writer.old.me.0.of (history_of writer.old.me.0.of (writer.old.me.0.seen ++ entry ∷ [])) }
{
    let extended = push(writer.slot_mut(shared, 0), entry);
    let found = give_extended(shared, writer);
    AddedStep { extended, found }
}
