//! The steps at a journal.

ghost use Rattle.std.specs.Prelude.{◌≡◌, ◌≢◌, ◌∷◌, [], MatchBool, Some};
ghost use Rattle.gfs_types.specs.declared.ids.Node.{Node};
ghost use Rattle.protocol_journal.specs.Journal.{Entry};
ghost use Rattle.cell_journal.specs.Identity.{Filled};
ghost use Rattle.cell_journal.specs.Rules.{HasTaken, Writes, IsSame, Adds, gave, next_writer, after_next};

use crate::journal_rule::{Give, JournalWriter, Mark, Next, SharedHistory, Take};

/// Takes the journal, if it is there; the word is then this one.
pub fn take(shared: &SharedHistory, writer: &mut JournalWriter, word: u64) -> bool
    requires shared { (shared.now.table_id.words ≡ 1) × (shared.now.table_id.slots ≡ 1) × (writer.old.table_id ≡ shared.now.table_id) }
    requires word { word ≢ 0 }
    requires none { writer.old.me.1 ≡ [] }
    requires writes { (n : Node) × Writes writer.old.me.0 n }
    ensures same { (writer.new.table_id ≡ writer.old.table_id) × (writer.new.id ≡ writer.old.id) }
    ensures took { MatchBool result (HasTaken writer.old.me writer.new.me) (writer.new.me ≡ writer.old.me) }
{
    shared.compare_exchange::<Take>(writer, 0, 0, word) == 0
}

/// Changes the word while the journal is out, from one that is not 0 to another. Answers the word that was found.
pub fn mark(shared: &SharedHistory, writer: &mut JournalWriter, old: u64, new: u64) -> u64
    requires shared { (shared.now.table_id.words ≡ 1) × (shared.now.table_id.slots ≡ 1) × (writer.old.table_id ≡ shared.now.table_id) }
    requires words { (old ≢ 0) × (new ≢ 0) }
    ensures same { (writer.new.table_id ≡ writer.old.table_id) × (writer.new.id ≡ writer.old.id) × (writer.new.me ≡ writer.old.me) }
{
    shared.compare_exchange::<Mark>(writer, 0, old, new)
}

/// A writer for the next node: the master, then the servers, then the clients.
pub fn next(shared: &SharedHistory, writer: &mut JournalWriter) -> JournalWriter
    requires shared { (shared.now.table_id.words ≡ 1) × (shared.now.table_id.slots ≡ 1) × (writer.old.table_id ≡ shared.now.table_id) }
    ensures left { (writer.new.table_id ≡ writer.old.table_id) × (writer.new.id ≡ writer.old.id) × (writer.new.me ≡ (after_next writer.old.me.0, writer.old.me.1)) }
    ensures node { (result.table_id ≡ writer.old.table_id) × (result.me ≡ (next_writer writer.old.me.0, [])) }
{
    shared.split_seat::<Next>(writer)
}

/// Gives the journal back as it was taken, or with more room or less. Answers the word that was found.
pub fn give_back(shared: &SharedHistory, writer: &mut JournalWriter) -> u64
    requires shared { (shared.now.table_id.words ≡ 1) × (shared.now.table_id.slots ≡ 1) × (writer.old.table_id ≡ shared.now.table_id) }
    requires writes { (n : Node) × Writes writer.old.me.0 n }
    requires has { (y : Filled) × (writer.old.me.1 ≡ (0, Some y) ∷ []) × IsSame writer.old.me.0 y }
    ensures same { (writer.new.table_id ≡ writer.old.table_id) × (writer.new.id ≡ writer.old.id) }
    ensures gave { (y : Filled) → writer.old.me.1 ≡ (0, Some y) ∷ [] → writer.new.me ≡ (gave writer.old.me.0 y, []) }
{
    shared.swap::<Give>(writer, 0, 0)
}

/// Gives the journal back with one entry more, which is the next step of the writer's own node. Answers the word that was found.
pub fn give_extended(shared: &SharedHistory, writer: &mut JournalWriter) -> u64
    requires shared { (shared.now.table_id.words ≡ 1) × (shared.now.table_id.slots ≡ 1) × (writer.old.table_id ≡ shared.now.table_id) }
    requires has { (y : Filled) × (writer.old.me.1 ≡ (0, Some y) ∷ []) × ((e : Entry) × Adds writer.old.me.0 e y) }
    ensures same { (writer.new.table_id ≡ writer.old.table_id) × (writer.new.id ≡ writer.old.id) }
    ensures gave { (y : Filled) → writer.old.me.1 ≡ (0, Some y) ∷ [] → writer.new.me ≡ (gave writer.old.me.0 y, []) }
{
    shared.swap::<Give>(writer, 0, 0)
}
