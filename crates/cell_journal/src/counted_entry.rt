//! An entry with the count of messages before it.

use crate::journal_entry::JournalEntry;

/// An entry, and how many messages were sent before it.
#[derive(Drop)]
pub struct CountedEntry {
    pub entry: JournalEntry,
    pub before: u128,
}
