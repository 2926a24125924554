//! What a writer at the journal knows.

use crate::identity::CellIdentity;
use crate::journal_entry::JournalEntry;
use gfs_types::ids::Node;
use std::collections::LinkedList;

/// Whose steps a writer writes: nobody's, one node's, or those of each node from a number on. No value of it is made.
pub enum Role {
    Nobody,
    Only(Node),
    From(u64),
}

/// What a writer knows: its cell, whose steps it writes, which these are so far, whether it has the journal, the entries as it last
/// saw them, for how many steps it has room, and for how many there was room in all when it took the journal. No value of it is
/// made.
pub struct View {
    pub of: CellIdentity,
    pub role: Role,
    pub mine: LinkedList<JournalEntry>,
    pub holds: bool,
    pub seen: LinkedList<JournalEntry>,
    pub rooms: u64,
    pub found: u64,
}
