//! An entry as one of its cell's whole history.

use crate::journal_entry::JournalEntry;
use std::marker::Model;

/// An entry of a journal, and how many messages its cell sent before that journal: the numbers of the messages that it takes are counted
/// after those.
#[derive(Drop)]
pub struct RaisedEntry {
    pub entry: JournalEntry,
    pub earlier: u128,
}

impl Model for RaisedEntry {
    ghost use Rattle.protocol_journal.specs.Journal.{Entry};
    ghost use Rattle.protocol_journal.specs.Whole.{raised_entry};

    ghost Value = { Entry };

    ghost view = { λ r. raised_entry r.earlier r.entry };
}
