//! The beginning of a step: room for it, and its message.

ghost use Rattle.std.specs.Prelude.{◌≡◌, ◌+◌, ◌-◌, ◌<◌, ◌∷◌, [], Some, true, IfOk, OnErr};
ghost use Rattle.protocol_journal.specs.Journal.{sent_after};
ghost use Rattle.cell_journal.specs.Identity.{Filled, filled};
ghost use Rattle.cell_journal.specs.Writers.{IsAt, IsNodeWriter, IsLater, IsRead, Prepares};

use crate::history::History;
use crate::journal_lock::{acquire, release};
use crate::{JournalWriter, SharedHistory};
use gfs_types::ids::Node;
use gfs_types::refusal::Refusal;
use messages::message::Message;
use std::sync::Wait;

/// Makes room for a step, which is taken on the message of a number, if there is one. Where the entry that sent that message was let go the message is
/// lost (Unknown).
pub fn begin(
    rt: &impl Wait,
    shared: &SharedHistory,
    writer: &mut JournalWriter,
    node: Node,
    number: Option<u64>,
) -> Result<Option<Message>, Refusal>
    requires shared { IsAt shared.now.table_id writer.old.table_id }
    requires writer { IsNodeWriter node writer.old.me }
    ensures same { (writer.new.table_id ≡ writer.old.table_id) × (writer.new.id ≡ writer.old.id) }
    ensures writer { IsNodeWriter node writer.new.me }
    ensures later { IsLater writer.old.me.0 writer.new.me.0 }
    ensures ok { IfOk result (λ m. (writer.new.me.0.rooms ≡ writer.old.me.0.rooms + 1) × IsRead (sent_after [] writer.new.me.0.seen) node number m) }
    ensures err { OnErr result (writer.new.me.0.rooms ≡ writer.old.me.0.rooms) }
{
    if !acquire(rt, shared, writer) {
        return Err(Refusal::Closed);
    }
    let prepared = prepare_at(shared, writer, node, number);
    release(shared, writer);
    prepared
}

/// A step that was begun is not taken.
pub fn give_up(rt: &impl Wait, shared: &SharedHistory, writer: &mut JournalWriter, node: Node)
    requires shared { IsAt shared.now.table_id writer.old.table_id }
    requires writer { IsNodeWriter node writer.old.me }
    requires room { 0 < writer.old.me.0.rooms }
    ensures same { (writer.new.table_id ≡ writer.old.table_id) × (writer.new.id ≡ writer.old.id) }
    ensures writer { IsNodeWriter node writer.new.me }
    ensures later { IsLater writer.old.me.0 writer.new.me.0 }
{
    if !acquire(rt, shared, writer) {
        return;
    }
    give_up_at(shared, writer);
    release(shared, writer);
}

fn prepare_at(
    shared: &SharedHistory,
    writer: &mut JournalWriter,
    node: Node,
    number: Option<u64>,
) -> Result<Option<Message>, Refusal>
    requires shared { writer.old.table_id ≡ shared.now.table_id }
    requires has { (y : Filled) × (writer.old.me.1 ≡ (0, Some y) ∷ []) }
    ensures same { (writer.new.table_id ≡ writer.old.table_id) × (writer.new.id ≡ writer.old.id) }
    ensures prepares { (y : Filled) → writer.old.me.1 ≡ (0, Some y) ∷ [] → Prepares writer.old.me.0 y node number result writer.new.me }
{
    prepare_in(writer.slot_mut(shared, 0), node, number)
}

fn prepare_in(
    slot: &mut Option<History>,
    node: Node,
    number: Option<u64>,
) -> Result<Option<Message>, Refusal>
    requires { (y : Filled) × (slot.old ≡ Some y) }
    ensures ok { IfOk result (λ m. (y : Filled) → slot.old ≡ Some y → (slot.new ≡ Some (filled y.cell y.entries (y.reserved + 1))) × IsRead (sent_after [] y.entries) node number m) }
    ensures err { OnErr result (slot.new ≡ slot.old) }
{
    match slot {
        Some(history) => prepare(history, node, number),
        None => unreachable!(),
    }
}

fn prepare(
    history: &mut History,
    node: Node,
    number: Option<u64>,
) -> Result<Option<Message>, Refusal>
    ensures ok { IfOk result (λ m. (history.new ≡ filled history.old.cell history.old.entries (history.old.reserved + 1)) × IsRead (sent_after [] history.old.entries) node number m) }
    ensures err { OnErr result (history.new ≡ history.old) }
{
    let message = read(history, node, number)?;
    match history.reserve() {
        Ok(()) => Ok(message),
        Err(_) => Err(Refusal::JournalFull),
    }
}

// The message of a number, if it was sent to this node. There is none where there is no memory for it, nor where the entry that sent it was let go
// (Unknown).
#[tactic(auto, using(crate::proofs::Retained::message_is))]
fn read(history: &History, node: Node, number: Option<u64>) -> Result<Option<Message>, Refusal>
    ensures { IfOk result (λ m. IsRead (sent_after [] history.now.entries) node number m) }
{
    let Some(number) = number else {
        return Ok(None);
    };
    let Ok(found) = history.message(number) else {
        return Err(Refusal::NoMemory);
    };
    let Some(message) = found else {
        return Err(Refusal::Unknown);
    };
    if is_same_node(message.receiver, node) {
        Ok(Some(message))
    } else {
        Err(Refusal::NoMemory)
    }
}

fn is_same_node(one: Node, other: Node) -> bool
    ensures { result ≡ true → one ≡ other }
{
    one == other
}

fn give_up_at(shared: &SharedHistory, writer: &mut JournalWriter)
    requires shared { writer.old.table_id ≡ shared.now.table_id }
    requires has { (y : Filled) × (writer.old.me.1 ≡ (0, Some y) ∷ []) × (0 < y.reserved) }
    ensures same { (writer.new.table_id ≡ writer.old.table_id) × (writer.new.id ≡ writer.old.id) }
    ensures gives { (y : Filled) → writer.old.me.1 ≡ (0, Some y) ∷ [] → writer.new.me ≡ (writer.old.me.0, (0, Some (filled y.cell y.entries (y.reserved - 1))) ∷ []) }
{
    give_up_in(writer.slot_mut(shared, 0));
}

fn give_up_in(slot: &mut Option<History>)
    requires { (y : Filled) × (slot.old ≡ Some y) × (0 < y.reserved) }
    ensures { (y : Filled) → slot.old ≡ Some y → slot.new ≡ Some (filled y.cell y.entries (y.reserved - 1)) }
{
    match slot {
        Some(history) => history.give_up(),
        None => unreachable!(),
    }
}
