//! The end of a step: its entry stands in the journal.

ghost use Rattle.std.specs.Prelude.{◌≡◌, ◌<◌, IfSome, IfNone};
ghost use Rattle.cell_journal.specs.Clocks.{are_clocks_kept};
ghost use Rattle.cell_journal.specs.Rules.{IsStepOf};
ghost use Rattle.cell_journal.specs.Writers.{IsAt, IsNodeWriter, GoesOn, IsSeen};
ghost use Rattle.cell_journal.specs.WholeHistories.{all_seen};

use crate::journal_entry::JournalEntry;
use crate::journal_lock::{acquire, wake};
use crate::{AddedStep, ExtendedHistory, JournalWriter, SharedHistory, add};
use gfs_types::ids::Node;
use std::sync::Wait;

/// Adds a step that was begun, which is the node's next one. Answers the history as it is then; none where it was closed.
pub fn end(
    rt: &impl Wait,
    shared: &SharedHistory,
    writer: &mut JournalWriter,
    node: Node,
    entry: JournalEntry,
) -> Option<ExtendedHistory>
    requires shared { IsAt shared.now.table_id writer.old.table_id }
    requires writer { IsNodeWriter node writer.old.me }
    requires room { 0 < writer.old.me.0.rooms }
    requires step { IsStepOf writer.old.me.0 entry }
    ensures same { (writer.new.table_id ≡ writer.old.table_id) × (writer.new.id ≡ writer.old.id) }
    ensures writer { IsNodeWriter node writer.new.me }
    ensures some { IfSome result (λ l. GoesOn writer.old.me.0 writer.new.me.0 entry × IsSeen writer.new.me.0 l.beginning l.count) }
    ensures clocks { IfSome result (λ l. l.are_clocks_kept ≡ are_clocks_kept writer.new.me.0.of (all_seen writer.new.me.0)) }
    ensures none { IfNone result (writer.new.me ≡ writer.old.me) }
{
    if !acquire(rt, shared, writer) {
        return None;
    }
    let AddedStep { extended, found } = add(shared, writer, entry);
    wake(shared, found);
    Some(extended)
}
