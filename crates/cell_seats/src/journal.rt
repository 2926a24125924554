//! The journal of a cell that was closed or parked.

ghost use Rattle.std.specs.Prelude.{◌≡◌, ◌≤◌, ◌<◌, ◌+◌, [], None, Some, true, length, take, vec_len, IfSome, IfNone, IsTrue};
ghost use Rattle.std.specs.Option.{option_copied};
ghost use mathlib.Core.List.{IsPrefix};
ghost use Rattle.cell_journal.specs.ListEnds.{Agrees};
ghost use Rattle.gfs_types.specs.Settings.{first_out_of_range};
ghost use Rattle.headline.specs.Journals.{AreExplained};
ghost use Rattle.cell_journal.specs.Clocks.{are_clocks_kept};
ghost use Rattle.cell_journal.specs.Rules.{IsJournalOf};
ghost use Rattle.protocol_journal.specs.Journal.{Restarts};
ghost use Rattle.cell_journal.specs.Entries.{cause_of};
ghost use Rattle.cell_journal.specs.Identity.{closed};
ghost use Rattle.cell_journal.specs.Log.{listed};
ghost use Rattle.cell_journal.specs.WholeHistories.{whole_of, AreRestarts};
ghost use Rattle.cell_seats.specs.Journals.{journal_state, joined, all_in, steps_in, first_kept, kept_step, AreBehind, AreSkipped, HasRestart};

use crate::seat::Seat;
use crate::stepper::Stepper;
use cell_journal::closed_history::ClosedHistory;
use cell_journal::journal_entry::{JournalEntry, StepCause};
use cell_journal::raised_entry::RaisedEntry;
use cell_journal::{GrowingList, closed_history};
use gfs_types::ids::{Node, ServerId};
use std::marker::Model;

/// All steps in the journal of a cell that was closed or parked, in one order. It stands behind the journal up to which its cell was parked before, if it was.
pub struct Journal {
    history: ClosedHistory,
    /// With how many entries, all of which stay and are no steps of the journal, its nodes began again.
    skip: usize,
    /// The journal that it stands behind, if there is one.
    base: Vec<Journal>,
}

// A cell that was parked often has many journals, so that they go one after another.
impl Drop for Journal {
    fn drop(self) {
        let Self {
            history: _history,
            skip: _,
            mut base,
        } = self;
        for _ in 0..usize::MAX {
            let Some(journal) = base.pop() else {
                break;
            };
            base = journal.into_base();
        }
    }
}

impl Model for Journal {
    ghost use Rattle.std.specs.Prelude.{◌≡◌, ◌≤◌, None, length, vec_len};
    ghost use Rattle.std.proofs.Common.{arith};
    ghost use Rattle.gfs_types.specs.Settings.{first_out_of_range};
    ghost use Rattle.cell_journal.specs.Rules.{IsJournalOf};
    ghost use Rattle.cell_seats.specs.Journals.{JournalState, journal_state, joined, most_le, AreBehind, AreSkipped};

    ghost Value = { JournalState };

    ghost view = { λ j. journal_state j.history (joined j.base.items) j.skip };

    ghost size = { λ j. length j.earlier };

    ghost size_decreases = { λ a h. omega (arith, most_le a.base.items) };

    ghost invariant = { λ j. IsJournalOf j.history.cell j.history.entries × (first_out_of_range j.history.cell.config ≡ None) × (vec_len j.base ≤ 1) × AreBehind j.history.cell (joined j.base.items) × AreSkipped j.history j.skip };
}

impl Journal {
    /// A journal behind another, if there is one.
    pub fn new(history: ClosedHistory, base: Vec<Journal>) -> Journal
        requires lawful { IsJournalOf history.cell history.entries }
        requires range { first_out_of_range history.cell.config ≡ None }
        requires one { vec_len base ≤ 1 }
        requires behind { AreBehind history.cell (joined base.items) }
        ensures journal { result.now ≡ history }
        ensures earlier { result.earlier ≡ joined base.items }
        ensures lawful { IsJournalOf result.now.cell result.now.entries }
        ensures explained { IsTrue (are_clocks_kept result.now.cell (whole_of result.now)) → AreExplained result.now.cell.config (whole_of result.now) }
    {
        let skip = restarts_in(&history, base.is_empty());
        Journal {
            history,
            skip,
            base,
        }
    }

    /// All its entries.
    pub fn history(&self) -> &ClosedHistory
        ensures history { result.now ≡ self.now.now }
        ensures lawful { IsJournalOf self.now.now.cell self.now.now.entries }
        ensures range { first_out_of_range self.now.now.cell.config ≡ None }
        ensures behind { AreBehind self.now.now.cell self.now.earlier }
    {
        &self.history
    }

    /// The same journal, once its cell is closed with the list of its history.
    pub fn close(self, list: GrowingList<RaisedEntry>) -> Journal
        requires { list ≡ listed self.now.cell.name (whole_of self.now) }
        ensures { result ≡ journal_state (closed self.now.cell self.now.entries true) self.earlier self.skip }
    {
        let Self {
            history,
            skip,
            base,
        } = self;
        Journal {
            history: history.close(list),
            skip,
            base,
        }
    }

    // The journal that it stands behind, if there is one.
    fn into_base(self) -> Vec<Journal>
        ensures { joined result.items ≡ self.earlier }
    {
        let Self {
            history: _history,
            skip: _,
            base,
        } = self;
        base
    }

    /// The journal up to which its cell was parked before. None: its cell is a new one.
    pub fn base(&self) -> Option<&Journal>
        ensures some { IfSome result (λ b. (self.now.now.cell.base ≡ whole_of b.now.now) × (self.now.earlier ≡ all_in b.now)) }
        ensures none { IfNone result ((self.now.now.cell.base ≡ []) × (self.now.earlier ≡ [])) }
    {
        self.base.as_slice().first()
    }

    /// How many steps there are, restarts too once one of these was let go. Behind those of the base, and the restarts that are left out, they are a
    /// lawful history of the cell. Where clocks were
    /// kept in it, its calls and answers are a run of the machine.
    pub fn len(&self) -> usize
        ensures count { result ≡ length (steps_in self.now) }
        ensures lawful { IsJournalOf self.now.now.cell self.now.now.entries }
        ensures explained { IsTrue (are_clocks_kept self.now.now.cell (whole_of self.now.now)) → AreExplained self.now.now.cell.config (whole_of self.now.now) }
        ensures skipped { AreSkipped self.now.now self.now.skip }
    {
        self.history.len().saturating_sub(self.skip)
    }

    /// Whether clocks were kept: no moment of a step is behind that of an earlier one by more than the clock bound.
    pub fn are_clocks_kept(&self) -> bool
        ensures { result ≡ are_clocks_kept self.now.now.cell (whole_of self.now.now) }
    {
        self.history.are_clocks_kept()
    }

    /// The place of the first step whose entry stays: 0 where the whole journal does.
    pub fn first(&self) -> usize
        ensures { result ≡ first_kept self.now }
    {
        self.history.first().saturating_sub(self.skip)
    }

    /// The step at a place, from 0, where its entry stays.
    pub fn event(&self, place: usize) -> Option<&JournalEntry>
        ensures { option_copied result ≡ kept_step self.now place }
    {
        let count = self.history.len().saturating_sub(self.skip);
        if place >= count {
            return None;
        }
        self.history.event(self.skip + place)
    }
}

// With how many entries the nodes of a cell began again behind an earlier journal: one of each, the master's first, if all of these stay, and else none.
fn restarts_in(history: &ClosedHistory, is_first: bool) -> usize
    ensures { AreSkipped history.now result }
{
    let servers = history.cell().servers();
    if is_first {
        return 0;
    }
    if !all_restart(history, servers) {
        return 0;
    }
    servers as usize + 1
}

// Whether the first entries are the restarts of the master and then of each server.
fn all_restart(history: &ClosedHistory, servers: u64) -> bool
    ensures restarts { result ≡ true → AreRestarts servers (take (servers + 1) history.now.entries) }
    ensures few { result ≡ true → servers < 65536 }
{
    if !restarts_at(history, 0, Node::Master) {
        return false;
    }
    for before in 0..servers {
        if !next_restarts(history, before) {
            return false;
        }
    }
    true
}

// Whether after the master and so many servers the next server began again.
fn next_restarts(history: &ClosedHistory, before: u64) -> bool
    requires { AreRestarts before (take (before + 1) history.now.entries) }
    ensures restarts { result ≡ true → AreRestarts (before + 1) (take (before + 1 + 1) history.now.entries) }
    ensures few { result ≡ true → before + 1 < 65536 }
{
    if before >= 65_535 {
        return false;
    }
    let number = before as u16 + 1;
    restarts_at(history, number as usize, Node::Server(ServerId(number)))
}

// Whether a node began again with the entry at this place.
fn restarts_at(history: &ClosedHistory, place: usize, node: Node) -> bool
    ensures { result ≡ true → HasRestart history.now.entries place node }
{
    match history.event(place) {
        Some(entry) => is_restart_of(entry, node),
        None => false,
    }
}

fn is_restart_of(entry: &JournalEntry, node: Node) -> bool
    ensures node { result ≡ true → entry.now.node ≡ node }
    ensures cause { result ≡ true → entry.now.cause ≡ Restarts }
{
    entry.node() == node && is_restart(entry.cause())
}

fn is_restart(cause: &StepCause) -> bool
    ensures { result ≡ true → cause_of cause.now ≡ Restarts }
{
    match cause {
        StepCause::Restarts => true,
        _ => false,
    }
}

/// What a client has seen agrees with its cell's whole history up to the end of a journal of it: it begins it where the cell was closed, and else
/// the shorter of both begins the longer.
pub fn agree<N: Stepper + Drop>(seat: &Seat<N>, journal: &Journal)
    requires { seat.now.cell.name ≡ journal.now.now.cell.name }
    ensures { Agrees seat.now.seen (whole_of journal.now.now) journal.now.now.is_over }
{
    closed_history::agree(seat.view(), &journal.history);
}

/// Of what two clients of one cell have seen the shorter begins the longer.
pub fn meet<N: Stepper + Drop>(one: &Seat<N>, other: &Seat<N>)
    requires { one.now.cell.name ≡ other.now.cell.name }
    ensures { length one.now.seen ≤ length other.now.seen → IsPrefix one.now.seen other.now.seen }
{
    cell_journal::meet(one.view(), other.view());
}
