//! Looking up entries and messages of a history.

ghost use Rattle.std.specs.Prelude.{◌≡◌, ◌<◌, ◌≤◌, length, take, slice_get, IfOk};
ghost use Rattle.std.specs.Option.{option_copied};
ghost use Rattle.cell_journal.specs.CountedEntries.{entries_in, sent_in, AreCounted, IsIn};
ghost use Rattle.cell_journal.specs.Retained.{first_of, kept_entry, kept_sent};

use crate::journal_entry::JournalEntry;
use crate::retained_rows::RetainedRows;
use gfs_types::lists::ExactClone;
use gfs_types::no_memory::NoMemory;
use messages::message::Message;
use messages::message_lists::MessageList;

/// The entry at this place, where it stays.
pub(crate) fn entry_at(rows: &RetainedRows, place: usize) -> Option<&JournalEntry>
    ensures { option_copied result ≡ kept_entry rows.now.retention (entries_in rows.now.all) place }
{
    match rows.get(place) {
        Some(row) => Some(&row.entry),
        None => None,
    }
}

/// The message of this number, from 1, as its node gave it, where the entry that sent it stays.
#[tactic(auto, using(crate::proofs::Retained::sent_gone, crate::proofs::Retained::sent_stays, crate::proofs::Numbers::not_sent))]
pub(crate) fn message_in(rows: &RetainedRows, count: u128, number: u64) -> Option<&Message>
    requires counted { AreCounted 0 rows.now.all }
    requires count { count ≡ length (sent_in rows.now.all) }
    ensures { option_copied result ≡ kept_sent rows.now number }
{
    let number = u128::from(number);
    if number <= gone_messages(rows) || number > count {
        return None;
    }
    let row = rows.at(place_of(rows, number));
    message_at(&row.entry.out().sent, (number - 1 - row.before) as usize)
}

// How many messages the entries sent that were let go.
#[tactic(auto, using(crate::proofs::Retained::sent_before_first, crate::proofs::Retained::none_sent))]
fn gone_messages(rows: &RetainedRows) -> u128
    requires counted { AreCounted 0 rows.now.all }
    ensures { result ≡ length (sent_in (take (first_of rows.now) rows.now.all)) }
{
    match rows.get(rows.first()) {
        Some(row) => row.before,
        None => 0,
    }
}

fn message_at(messages: &MessageList, place: usize) -> Option<&Message>
    ensures { option_copied result ≡ slice_get messages.now place }
{
    messages.as_slice().get(place)
}

// The place of the entry that sent a message, which stays.
#[tactic(auto, using(crate::proofs::Retained::first_within, crate::proofs::Numbers::in_all))]
fn place_of(rows: &RetainedRows, number: u128) -> usize
    requires counted { AreCounted 0 rows.now.all }
    requires least { length (sent_in (take (first_of rows.now) rows.now.all)) < number }
    requires most { number ≤ length (sent_in rows.now.all) }
    ensures stays { first_of rows.now ≤ result }
    ensures place { IsIn rows.now.all number result }
{
    let mut low = rows.first();
    let mut high = rows.len();
    while high - low > 1 {
        let middle = low + (high - low) / 2;
        if rows.at(middle).before < number {
            low = middle;
        } else {
            high = middle;
        }
    }
    low
}

/// A copy of a message, under its number.
pub(crate) fn copy_numbered(message: &Message, number: u64) -> Result<Message, NoMemory>
    ensures { IfOk result (λ m. m ≡ record message.now { number = number }) }
{
    let mut copy = message.exact_clone()?;
    copy.number = number;
    Ok(copy)
}
