//! The journal of a cell that was closed or parked.

ghost use Rattle.std.specs.Prelude.{◌≡◌, length, true};
ghost use Rattle.std.specs.Option.{option_copied};
ghost use Rattle.cell_journal.specs.Log.{listed};
ghost use Rattle.cell_journal.specs.Clocks.{are_clocks_kept};
ghost use Rattle.cell_journal.specs.Identity.{closed};
ghost use Rattle.cell_journal.specs.ListEnds.{Agrees};
ghost use Rattle.cell_journal.specs.Retained.{gone_of, kept_entry};
ghost use Rattle.cell_journal.specs.WholeHistories.{whole_of};

use crate::clocks::Clocks;
use crate::identity::CellIdentity;
use crate::journal_entry::JournalEntry;
use crate::list_end::ListEnd;
use crate::lookup::entry_at;
use crate::raised_entry::RaisedEntry;
use crate::retained_rows::RetainedRows;
use crate::retention::Retention;
use crate::{Beginning, GrowingList, WholeList};
use std::marker::Model;

/// The journal of a cell that was closed or parked. Of its entries those can be looked at that stay.
pub struct ClosedHistory {
    pub(crate) cell: CellIdentity,
    pub(crate) rows: RetainedRows,
    /// How many entries the cell had before this journal.
    pub(crate) base_len: usize,
    pub(crate) clocks: Clocks,
    pub(crate) end: ListEnd,
}

// Stands here, once, so that no function that lets one go, here or above, takes its fields apart.
impl Drop for ClosedHistory {
    fn drop(self) {
        let Self {
            cell: _cell,
            rows: _rows,
            base_len: _,
            clocks: _,
            end: _end,
        } = self;
    }
}

impl Model for ClosedHistory {
    ghost use Rattle.std.specs.Prelude.{◌≡◌, ◌<◌, ◌≤◌, ◌^◌, length};
    ghost use Rattle.cell_journal.specs.Clocks.{clocks_after};
    ghost use Rattle.cell_journal.specs.Identity.{Closed, closed};
    ghost use Rattle.cell_journal.specs.CountedEntries.{entries_in};
    ghost use Rattle.cell_journal.specs.WholeHistories.{history_of};

    ghost Value = { Closed };

    ghost view = { λ p. closed p.cell (entries_in p.rows.all) p.end.is_over };

    ghost invariant = { λ p. (p.end.name ≡ p.cell.name) × (p.end.items ≡ history_of p.cell (entries_in p.rows.all)) × (p.clocks ≡ clocks_after p.cell.config (history_of p.cell (entries_in p.rows.all))) × (p.base_len ≡ length p.cell.base) × (p.base_len < 2 ^ 63) × (length p.rows.all ≤ 2 ^ 62) × (p.rows.retention ≡ p.cell.retention) };
}

impl ClosedHistory {
    /// The cell of this journal.
    pub fn cell(&self) -> CellIdentity
        ensures { result ≡ self.now.cell }
    {
        self.cell.again()
    }

    /// Which entries stay.
    pub fn retention(&self) -> Retention
        ensures { result ≡ self.now.cell.retention }
    {
        self.cell.retention()
    }

    /// How many entries there are, also of those that were let go.
    pub fn len(&self) -> usize
        ensures { result ≡ length self.now.entries }
    {
        self.rows.len()
    }

    /// How many entries the cell's whole history has up to the end of this journal.
    pub fn whole_len(&self) -> usize
        ensures { result ≡ length (whole_of self.now) }
    {
        self.base_len + self.rows.len()
    }

    /// Whether clocks were kept: no moment of a step is behind that of an earlier one by more than the clock bound.
    pub fn are_clocks_kept(&self) -> bool
        ensures { result ≡ are_clocks_kept self.now.cell (whole_of self.now) }
    {
        self.clocks.kept
    }

    /// The place of the first entry that stays.
    pub fn first(&self) -> usize
        ensures { result ≡ gone_of self.now.cell.retention (length self.now.entries) }
    {
        self.rows.first()
    }

    /// The entry at this place, where it stays.
    pub fn event(&self, place: usize) -> Option<&JournalEntry>
        ensures { option_copied result ≡ kept_entry self.now.cell.retention self.now.entries place }
    {
        entry_at(&self.rows, place)
    }

    /// The same journal, once its cell is closed with the list of its history.
    pub fn close(self, list: GrowingList<RaisedEntry>) -> ClosedHistory
        requires { list ≡ listed self.cell.name (whole_of self) }
        ensures { result ≡ closed self.cell self.entries true }
    {
        self.ended(list.close())
    }

    /// The same journal, of a cell that was closed with this list.
    pub(crate) fn ended(self, whole: WholeList<RaisedEntry>) -> ClosedHistory
        requires { whole ≡ listed self.cell.name (whole_of self) }
        ensures { result ≡ closed self.cell self.entries true }
    {
        let Self {
            cell,
            rows,
            base_len,
            clocks,
            end: _end,
        } = self;
        ClosedHistory {
            cell,
            rows,
            base_len,
            clocks,
            end: ListEnd::over(whole),
        }
    }
}

/// What somebody saw of a cell's history agrees with the history up to the end of this journal.
pub fn agree(beginning: &Beginning<RaisedEntry>, journal: &ClosedHistory)
    requires { beginning.now.name ≡ journal.now.cell.name }
    ensures { Agrees beginning.now.items (whole_of journal.now) journal.now.is_over }
{
    journal.end.agrees(beginning);
}
