//! Rows of a journal, of which the first may be let go.

ghost use Rattle.std.specs.Prelude.{◌≡◌, ◌+◌, ◌<◌, ◌≤◌, ◌^◌, ◌++◌, ◌∷◌, [], length, drop, get_or, IfSome, OnOk};
ghost use Rattle.std.specs.VecDeque.{deque_len, deque_capacity};
ghost use Rattle.std.specs.Option.{option_copied};
ghost use Rattle.cell_journal.specs.Retained.{gone_of, first_of, kept_row, HasRoom};

use crate::GrowingList;
use crate::counted_entry::CountedEntry;
use crate::retention::Retention;
use std::alloc::{AllocError, Global};
use std::collections::VecDeque;
use std::marker::Model;

/// Rows in order, of which the last stay in memory. That all were there is known in proofs alone.
pub struct RetainedRows {
    retention: Retention,
    rows: VecDeque<CountedEntry>,
    /// How many there were in all.
    count: usize,
    all: GrowingList<CountedEntry>,
}

// Stands here, once, so that no function that lets one go, here or above, takes its fields apart.
impl Drop for RetainedRows {
    fn drop(self) {
        let Self {
            retention: _,
            rows: _rows,
            count: _,
            all: _all,
        } = self;
    }
}

impl Model for RetainedRows {
    ghost use Rattle.std.specs.Prelude.{◌≡◌, length, drop};
    ghost use Rattle.std.specs.VecDeque.{deque_capacity};
    ghost use Rattle.cell_journal.specs.Retained.{Rows, rows_of, gone_of};

    ghost Value = { Rows };

    ghost view = { λ r. rows_of r.retention r.all.items (deque_capacity r.rows) };

    ghost invariant = { λ r. (r.rows.items ≡ drop (gone_of r.retention (length r.all.items)) r.all.items) × (r.count ≡ length r.all.items) };
}

impl RetainedRows {
    /// No rows. Takes no memory.
    pub fn new(alloc: Global, retention: Retention) -> Option<RetainedRows>
        ensures { IfSome result (λ r. (r.retention ≡ retention) × (r.all ≡ [])) }
    {
        let all = GrowingList::new()?;
        Some(RetainedRows {
            retention,
            rows: VecDeque::new(alloc),
            count: 0,
            all,
        })
    }

    /// How many there were in all.
    pub fn len(&self) -> usize
        ensures { result ≡ length self.now.all }
    {
        self.count
    }

    /// The place of the first that stays.
    pub fn first(&self) -> usize
        ensures { result ≡ first_of self.now }
    {
        self.retention.gone_of(self.count)
    }

    /// The row at a place, where it stays.
    #[tactic(auto, using(crate::proofs::Retained::row_gone, crate::proofs::Retained::row_stays, crate::proofs::Retained::got_behind))]
    pub fn get(&self, place: usize) -> Option<&CountedEntry>
        ensures { option_copied result ≡ kept_row self.now place }
    {
        let first = self.first();
        if place < first {
            return None;
        }
        self.rows.get(place - first)
    }

    /// The row at a place at which it stays.
    #[tactic(auto, using(crate::proofs::Retained::at_behind))]
    pub fn at(&self, place: usize) -> &CountedEntry
        requires stays { first_of self.now ≤ place }
        requires within { place < length self.now.all }
        ensures { result.now ≡ get_or self.now.all place result.now }
    {
        &self.rows[place - self.first()]
    }

    /// Memory is made for what stays once so many rows more have come. At an error the rows are the same.
    pub fn reserve(&mut self, more: usize) -> Result<(), AllocError>
        requires few { length self.old.all + more < 2 ^ 63 }
        ensures same { (self.new.retention ≡ self.old.retention) × (self.new.all ≡ self.old.all) }
        ensures capacity { self.old.capacity ≤ self.new.capacity }
        ensures room { OnOk result (HasRoom self.new more) }
    {
        let stays = self.retention.stays_of(self.count + more);
        self.rows.reserve(stays.saturating_sub(self.rows.len()))
    }

    /// One row more, for which there is memory. The first one that stays is let go where as many stay as may. Takes no memory.
    #[tactic(auto, using(crate::proofs::Retained::pushed_past, crate::proofs::Retained::pushed_on))]
    pub fn push(&mut self, row: CountedEntry)
        requires room { HasRoom self.old 1 }
        requires few { length self.old.all < 2 ^ 63 }
        ensures retention { self.new.retention ≡ self.old.retention }
        ensures all { self.new.all ≡ self.old.all ++ row ∷ [] }
        ensures capacity { self.new.capacity ≡ self.old.capacity }
    {
        let first = self.retention.gone_of(self.count);
        let gone = self.retention.gone_of(self.count + 1);
        self.all.push(&row);
        self.count += 1;
        if first < gone {
            replace_first(&mut self.rows, row);
        } else {
            self.rows.push_back_reserved(row);
        }
    }
}

// The first row is let go, and another one stands behind the last.
fn replace_first(rows: &mut VecDeque<CountedEntry>, row: CountedEntry)
    requires { 0 < deque_len rows.old }
    ensures items { rows.new.items ≡ drop 1 rows.old.items ++ row ∷ [] }
    ensures capacity { deque_capacity rows.new ≡ deque_capacity rows.old }
{
    rows.pop_front();
    rows.push_back_reserved(row);
}
