//! A look at the journal: what a step would be taken on.

ghost use Rattle.std.specs.Prelude.{◌≡◌, ◌∷◌, [], Some};
ghost use Rattle.cell_journal.specs.Identity.{Filled};
ghost use Rattle.cell_journal.specs.Writers.{IsAt, IsNodeWriter, IsLater};

use cell_journal::history::History;
use cell_journal::journal_lock::{acquire, release};
use cell_journal::{JournalWriter, SharedHistory};
use gfs_types::ids::Node;
use messages::message::Message;
use std::sync::Wait;

/// A copy of the message of a number, if it was sent to this node. No room is made for a step. There is none where there is no memory for it, its
/// entry was let go, or there is no journal any more.
pub(crate) fn look(
    rt: &impl Wait,
    shared: &SharedHistory,
    writer: &mut JournalWriter,
    node: Node,
    number: u64,
) -> Option<Message>
    requires shared { IsAt shared.now.table_id writer.old.table_id }
    requires writer { IsNodeWriter node writer.old.me }
    ensures same { (writer.new.table_id ≡ writer.old.table_id) × (writer.new.id ≡ writer.old.id) }
    ensures writer { IsNodeWriter node writer.new.me }
    ensures later { IsLater writer.old.me.0 writer.new.me.0 }
{
    if !acquire(rt, shared, writer) {
        return None;
    }
    let found = look_at(shared, writer, node, number);
    release(shared, writer);
    found
}

fn look_at(
    shared: &SharedHistory,
    writer: &mut JournalWriter,
    node: Node,
    number: u64,
) -> Option<Message>
    requires shared { writer.old.table_id ≡ shared.now.table_id }
    requires has { (y : Filled) × (writer.old.me.1 ≡ (0, Some y) ∷ []) }
    ensures same { (writer.new.table_id ≡ writer.old.table_id) × (writer.new.id ≡ writer.old.id) × (writer.new.me ≡ writer.old.me) }
{
    look_in(writer.slot_mut(shared, 0), node, number)
}

fn look_in(slot: &mut Option<History>, node: Node, number: u64) -> Option<Message>
    ensures { slot.new ≡ slot.old }
{
    match slot {
        Some(history) => sent_to(history, node, number),
        None => None,
    }
}

fn sent_to(history: &History, node: Node, number: u64) -> Option<Message> {
    match history.message(number) {
        Ok(Some(message)) if message.receiver == node => Some(message),
        _ => None,
    }
}
