//! Waiting for the journal of a running cell, which lies in a table whose word is its lock.

ghost use Rattle.std.specs.Prelude.{◌≡◌, ◌∷◌, [], MatchBool, Some};
ghost use Rattle.gfs_types.specs.declared.ids.Node.{Node};
ghost use Rattle.cell_journal.specs.Identity.{Filled};
ghost use Rattle.cell_journal.specs.Rules.{HasTaken, IsSame, Writes, gave};

use crate::journal_steps::{give_back, mark, take};
use crate::{JournalWriter, SharedHistory};
use std::sync::Wait;
use std::thread::yield_now;

/// The journal is out, and nobody waits for it.
const TAKEN: u64 = 1;

/// The journal is out, and somebody may wait for it.
const WAITED_FOR: u64 = 2;

/// The journal is out for good.
const CLOSED: u64 = 3;

/// How often whoever finds the journal out looks again, and lets other threads run, before it sleeps: a sleeper takes longer to be woken
/// than most steps have the journal.
const LOOKS: u32 = 100;

/// Takes the journal, once it is there. False: it is out for good.
pub fn acquire(rt: &impl Wait, shared: &SharedHistory, writer: &mut JournalWriter) -> bool
    requires shared { (shared.now.table_id.words ≡ 1) × (shared.now.table_id.slots ≡ 1) × (writer.old.table_id ≡ shared.now.table_id) }
    requires none { writer.old.me.1 ≡ [] }
    requires writes { (n : Node) × Writes writer.old.me.0 n }
    ensures same { (writer.new.table_id ≡ writer.old.table_id) × (writer.new.id ≡ writer.old.id) }
    ensures took { MatchBool result (HasTaken writer.old.me writer.new.me) (writer.new.me ≡ writer.old.me) }
{
    if take(shared, writer, TAKEN) {
        return true;
    }
    if take_soon(shared, writer) {
        return true;
    }
    for _ in rt.forever() {
        if take(shared, writer, WAITED_FOR) {
            return true;
        }
        let found = mark(shared, writer, TAKEN, WAITED_FOR);
        if found == CLOSED {
            return false;
        }
        if found != 0 {
            shared.park(rt, 0, WAITED_FOR as u32);
        }
    }
    unreachable!()
}

// Takes the journal, if it is back before long.
fn take_soon(shared: &SharedHistory, writer: &mut JournalWriter) -> bool
    requires shared { (shared.now.table_id.words ≡ 1) × (shared.now.table_id.slots ≡ 1) × (writer.old.table_id ≡ shared.now.table_id) }
    requires none { writer.old.me.1 ≡ [] }
    requires writes { (n : Node) × Writes writer.old.me.0 n }
    ensures same { (writer.new.table_id ≡ writer.old.table_id) × (writer.new.id ≡ writer.old.id) }
    ensures took { MatchBool result (HasTaken writer.old.me writer.new.me) (writer.new.me ≡ writer.old.me) }
{
    for _ in 0..LOOKS {
        yield_now();
        if take(shared, writer, TAKEN) {
            return true;
        }
    }
    false
}

/// Gives the journal back as it was taken, and wakes one who waits.
pub fn release(shared: &SharedHistory, writer: &mut JournalWriter)
    requires shared { (shared.now.table_id.words ≡ 1) × (shared.now.table_id.slots ≡ 1) × (writer.old.table_id ≡ shared.now.table_id) }
    requires writes { (n : Node) × Writes writer.old.me.0 n }
    requires has { (y : Filled) × (writer.old.me.1 ≡ (0, Some y) ∷ []) × IsSame writer.old.me.0 y }
    ensures same { (writer.new.table_id ≡ writer.old.table_id) × (writer.new.id ≡ writer.old.id) }
    ensures gave { (y : Filled) → writer.old.me.1 ≡ (0, Some y) ∷ [] → writer.new.me ≡ (gave writer.old.me.0 y, []) }
{
    let found = give_back(shared, writer);
    wake(shared, found);
}

/// Wakes one who waits for the journal, where the word that was found says that there may be one.
pub fn wake(shared: &SharedHistory, found: u64)
    requires { shared.now.table_id.words ≡ 1 }
{
    if found == WAITED_FOR {
        shared.wake_one(0);
    }
}

/// Says that the journal, which is out, never comes back, to whoever waits and to whoever comes.
pub fn shut(shared: &SharedHistory, writer: &mut JournalWriter)
    requires shared { (shared.now.table_id.words ≡ 1) × (shared.now.table_id.slots ≡ 1) × (writer.old.table_id ≡ shared.now.table_id) }
    ensures same { (writer.new.table_id ≡ writer.old.table_id) × (writer.new.id ≡ writer.old.id) × (writer.new.me ≡ writer.old.me) }
{
    if mark(shared, writer, TAKEN, CLOSED) != TAKEN {
        mark(shared, writer, WAITED_FOR, CLOSED);
    }
    shared.wake_all(0);
}
