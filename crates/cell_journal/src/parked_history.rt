//! The journal of a cell that was parked.

ghost use Rattle.std.specs.Prelude.{◌≡◌, true};
ghost use Rattle.cell_journal.specs.Log.{listed};
ghost use Rattle.cell_journal.specs.Identity.{closed};
ghost use Rattle.cell_journal.specs.WholeHistories.{whole_of};

use crate::GrowingList;
use crate::closed_history::ClosedHistory;
use crate::raised_entry::RaisedEntry;

/// A journal to which nothing is added any more, the list of its cell's whole history, which may go on behind it, how many messages were sent in
/// that history, and its greatest moment.
pub struct ParkedHistory {
    pub history: ClosedHistory,
    pub list: GrowingList<RaisedEntry>,
    pub sent: u128,
    pub greatest: u64,
}

// Stands here, once, so that no function that lets one go, here or above, takes its fields apart.
impl Drop for ParkedHistory {
    fn drop(self) {
        let Self {
            history: _history,
            list: _list,
            sent: _,
            greatest: _,
        } = self;
    }
}

impl ParkedHistory {
    /// The journal, of whose cell nothing more is written.
    pub fn close(self) -> ClosedHistory
        requires { self.list ≡ listed self.history.cell.name (whole_of self.history) }
        ensures { result ≡ closed self.history.cell self.history.entries true }
    {
        let (history, list) = self.into_parts();
        history.ended(list.close())
    }

    /// Its journal and its list.
    pub fn into_parts(self) -> (ClosedHistory, GrowingList<RaisedEntry>)
        ensures { result ≡ (self.history, self.list) }
    {
        let Self {
            history,
            list,
            sent: _,
            greatest: _,
        } = self;
        (history, list)
    }
}
