//! All entries of the journal, with room for more.

ghost use Rattle.std.specs.Prelude.{◌≡◌, ◌+◌, ◌-◌, ◌<◌, ◌++◌, ◌∷◌, [], length, ◌≤◌, ◌^◌, OnOk, OnErr, IfOk, IfErr, IfSome, replicate, true, false};
ghost use Rattle.std.specs.Option.{option_copied};
ghost use Rattle.protocol_journal.specs.Journal.{sent_after};
ghost use Rattle.cell_journal.specs.Clocks.{moved, clocks_after, are_clocks_kept};
ghost use Rattle.cell_journal.specs.Log.{listed};
ghost use Rattle.cell_journal.specs.Identity.{identity, filled, closed};
ghost use Rattle.cell_journal.specs.Retained.{HasRoom, kept_entry, kept_message};
ghost use Rattle.cell_journal.specs.Rules.{IsJournalOf};
ghost use Rattle.cell_journal.specs.WholeHistories.{history_of, whole_of};

use crate::clocks::Clocks;
use crate::closed_history::ClosedHistory;
use crate::counted_entry::CountedEntry;
use crate::identity::CellIdentity;
use crate::journal_entry::JournalEntry;
use crate::list_end::ListEnd;
use crate::lookup::{copy_numbered, entry_at, message_in};
use crate::parked_history::ParkedHistory;
use crate::raised_entry::RaisedEntry;
use crate::retained_rows::RetainedRows;
use crate::retention::Retention;
use crate::{Beginning, GrowingList};
use gfs_types::config::Config;
use gfs_types::no_memory::NoMemory;
use messages::message::Message;
use std::alloc::Global;
use std::marker::Model;

/// All entries so far, of which the last stay in memory, with room for those that are reserved.
pub struct History {
    cell: CellIdentity,
    rows: RetainedRows,
    /// How many messages were sent.
    count: u128,
    reserved: u64,
    clocks: Clocks,
    /// How many messages the cell sent, and how many entries it had, before this journal.
    earlier: u128,
    base_len: usize,
    /// How many entries the journal may have beside those that the settings allow: its restarts.
    uncounted: u64,
    list: GrowingList<RaisedEntry>,
}

// Stands here, once, so that no function that lets one go, here or above, takes its fields apart.
impl Drop for History {
    fn drop(self) {
        let Self {
            cell: _cell,
            rows: _rows,
            count: _,
            reserved: _,
            clocks: _,
            earlier: _,
            base_len: _,
            uncounted: _,
            list: _list,
        } = self;
    }
}

impl Model for History {
    ghost use Rattle.std.specs.Prelude.{◌≡◌, ◌≤◌, ◌<◌, ◌+◌, ◌*◌, ◌^◌, [], length};
    ghost use Rattle.protocol_journal.specs.Journal.{sent_after};
    ghost use Rattle.cell_journal.specs.WholeHistories.{history_of};
    ghost use Rattle.cell_journal.specs.Clocks.{clocks_after};
    ghost use Rattle.cell_journal.specs.Identity.{Filled, filled};
    ghost use Rattle.cell_journal.specs.CountedEntries.{entries_in, sent_in, AreCounted};
    ghost use Rattle.cell_journal.specs.Retained.{HasRoom};
    ghost use Rattle.cell_journal.specs.Rules.{IsJournalOf};

    ghost Value = { Filled };

    ghost view = { λ p. filled p.cell (entries_in p.rows.all) p.reserved };

    ghost invariant = { λ p. (p.list.name ≡ p.cell.name) × (p.list.items ≡ history_of p.cell (entries_in p.rows.all)) × (p.count ≡ length (sent_in p.rows.all)) × AreCounted 0 p.rows.all × HasRoom p.rows p.reserved × (p.count ≤ 2 ^ 64 * length p.rows.all) × (p.clocks ≡ clocks_after p.cell.config (history_of p.cell (entries_in p.rows.all))) × (p.earlier ≡ length (sent_after [] p.cell.base)) × (p.base_len ≡ length p.cell.base) × (p.base_len < 2 ^ 63) × (length p.rows.all + p.reserved ≤ 2 ^ 62) × IsJournalOf p.cell [] × (p.earlier ≤ 2 ^ 126) × (p.uncounted ≤ 2 ^ 31) × (p.rows.retention ≡ p.cell.retention) };
}

impl History {
    /// The journal of a new cell, which has no base. Takes no memory.
    #[tactic(auto, using(crate::proofs::CountedEntries::history_none, crate::proofs::Grown::begins_lawful, crate::proofs::Retained::room_none, crate::proofs::Retained::none_in, crate::proofs::Retained::none_counted))]
    pub fn new(
        alloc: Global,
        config: Config,
        servers: u64,
        clients: u64,
        retention: Retention,
    ) -> Option<History>
        ensures { IfSome result (λ p. p ≡ filled (identity p.cell.name config servers clients [] (replicate 64 false) retention) [] 0) }
    {
        let list = GrowingList::new()?;
        let rows = RetainedRows::new(alloc, retention)?;
        let cell = CellIdentity::new(
            list.beginning(),
            config,
            servers,
            clients,
            [false; 64],
            retention,
        );
        Some(History {
            cell,
            rows,
            count: 0,
            reserved: 0,
            clocks: Clocks {
                greatest: 0,
                kept: true,
            },
            earlier: 0,
            base_len: 0,
            uncounted: 0,
            list,
        })
    }

    /// The cell of this journal, which stands behind a lawful base.
    pub fn cell(&self) -> CellIdentity
        ensures cell { result ≡ self.now.cell }
        ensures lawful { IsJournalOf result [] }
    {
        self.cell.again()
    }

    /// How many entries there are.
    pub fn len(&self) -> usize
        ensures { result ≡ length self.now.entries }
    {
        self.rows.len()
    }

    /// How many entries the cell's whole history has.
    pub fn whole_len(&self) -> usize
        ensures { result ≡ length (history_of self.now.cell self.now.entries) }
    {
        self.base_len + self.rows.len()
    }

    /// The entry at this place, where it stays.
    pub fn event(&self, place: usize) -> Option<&JournalEntry>
        ensures { option_copied result ≡ kept_entry self.now.cell.retention self.now.entries place }
    {
        entry_at(&self.rows, place)
    }

    /// A copy of the message of this number, from 1. None: nothing was sent under it, or the entry that sent it was let go.
    #[tactic(auto, using(crate::proofs::Retained::kept_numbered))]
    pub fn message(&self, number: u64) -> Result<Option<Message>, NoMemory>
        ensures { IfOk result (λ m. m ≡ kept_message self.now.cell.retention self.now.entries number) }
    {
        match message_in(&self.rows, self.count, number) {
            Some(message) => Ok(Some(copy_numbered(message, number)?)),
            None => Ok(None),
        }
    }

    /// How many messages were sent.
    #[tactic(auto, using(crate::proofs::Numbers::sent_count))]
    pub fn message_count(&self) -> u128
        ensures { result ≡ length (sent_after [] self.now.entries) }
    {
        self.count
    }

    /// Whether clocks were kept so far: no moment of a step is behind that of an earlier one by more than the clock bound.
    pub fn are_clocks_kept(&self) -> bool
        ensures { result ≡ are_clocks_kept self.now.cell (history_of self.now.cell self.now.entries) }
    {
        self.clocks.kept
    }

    /// For how many entries more there is room.
    pub fn reserved(&self) -> u64
        ensures { result ≡ self.now.reserved }
    {
        self.reserved
    }

    /// Room for one entry more is made. There is none where an allocator refused it, or no more entries may be: by the cell's settings where the
    /// whole journal is to stay, else 2^62.
    #[tactic(auto, using(crate::proofs::Retained::room_kept))]
    pub fn reserve(&mut self) -> Result<(), NoMemory>
        ensures ok { OnOk result (self.new ≡ filled self.old.cell self.old.entries (self.old.reserved + 1)) }
        ensures err { OnErr result (self.new ≡ self.old) }
    {
        let most = self.most_entries();
        let taken = self.rows.len() as u64;
        if taken >= most || self.reserved >= most - taken {
            return Err(NoMemory);
        }
        self.rows.reserve(self.reserved as usize + 1)?;
        self.reserved += 1;
        Ok(())
    }

    // How many entries there may be.
    fn most_entries(&self) -> u64
        ensures { result ≤ 2 ^ 62 }
    {
        let whole = u64::from(self.cell.config().journal) + self.uncounted;
        self.cell.retention().most_entries(whole)
    }

    /// Room that was made is given up.
    #[tactic(auto, using(crate::proofs::Retained::room_fewer))]
    pub fn give_up(&mut self)
        requires { 0 < self.old.reserved }
        ensures { self.new ≡ filled self.old.cell self.old.entries (self.old.reserved - 1) }
    {
        self.reserved -= 1;
    }

    /// One entry more, in room that was made. Takes no memory.
    #[tactic(auto, using(crate::proofs::Retained::room_less))]
    pub fn push(&mut self, entry: JournalEntry)
        requires { 0 < self.old.reserved }
        ensures { self.new ≡ filled self.old.cell (self.old.entries ++ entry ∷ []) (self.old.reserved - 1) }
    {
        let before = self.count;
        self.count += entry.out().sent.len() as u128;
        self.reserved -= 1;
        let clocks = clocks_with(self.clocks, &self.cell, &entry);
        self.clocks = clocks;
        let raised = RaisedEntry {
            entry,
            earlier: self.earlier,
        };
        self.list.push(&raised);
        let RaisedEntry { entry, earlier: _ } = raised;
        add(&mut self.rows, CountedEntry { entry, before });
    }

    /// The whole history so far, as a beginning of the list.
    pub fn beginning(&self) -> Beginning<RaisedEntry>
        ensures { result ≡ listed self.now.cell.name (history_of self.now.cell self.now.entries) }
    {
        self.list.beginning()
    }

    /// The whole journal, to which nothing is added any more. Takes no memory.
    pub fn close(self) -> ClosedHistory
        ensures { result ≡ closed self.cell self.entries true }
    {
        self.park().close()
    }

    /// The journal as it is, to which nothing is added any more, and the list beside it, which may go on behind another journal. Takes no
    /// memory.
    pub fn park(self) -> ParkedHistory
        ensures journal { result.history ≡ closed self.cell self.entries false }
        ensures list { result.list ≡ listed self.cell.name (history_of self.cell self.entries) }
        ensures sent { result.sent ≡ length (sent_after [] (history_of self.cell self.entries)) }
        ensures greatest { result.greatest ≡ (clocks_after self.cell.config (history_of self.cell self.entries)).greatest }
    {
        let sent = self.earlier + self.count;
        let greatest = self.clocks.greatest;
        let Self {
            cell,
            rows,
            count: _,
            reserved: _,
            clocks,
            earlier: _,
            base_len,
            uncounted: _,
            list,
        } = self;
        let end = ListEnd::parked(list.beginning());
        ParkedHistory {
            history: ClosedHistory {
                cell,
                rows,
                base_len,
                clocks,
                end,
            },
            list,
            sent,
            greatest,
        }
    }

    /// A journal behind what a parked one had, with these clients of which nothing more is written. It may have so many entries beside those that
    /// the settings allow, and so many take no memory. Where there is no memory, or there would be more entries or messages than can be counted, the list
    /// comes back.
    #[tactic(auto, using(crate::proofs::Retained::room_none, crate::proofs::Retained::none_in, crate::proofs::Retained::none_counted))]
    pub fn behind(
        alloc: Global,
        parked: &ClosedHistory,
        list: GrowingList<RaisedEntry>,
        sent: u128,
        retired: [bool; 64],
        room: u64,
    ) -> Result<History, GrowingList<RaisedEntry>>
        requires list { list ≡ listed parked.now.cell.name (whole_of parked.now) }
        requires lawful { IsJournalOf parked.now.cell parked.now.entries }
        requires sent { sent ≡ length (sent_after [] (whole_of parked.now)) }
        ensures ok { IfOk result (λ p. p ≡ filled (identity parked.now.cell.name parked.now.cell.config parked.now.cell.servers parked.now.cell.clients (whole_of parked.now) retired parked.now.cell.retention) [] 0) }
        ensures err { IfErr result (λ l. l ≡ list) }
    {
        let base_len = parked.whole_len();
        let is_too_long = base_len >= MOST_BEFORE || sent > MOST_SENT || room > MOST_ROOM;
        if is_too_long {
            return Err(list);
        }
        let Some(rows) = rows_with(alloc, parked.retention(), room) else {
            return Err(list);
        };
        let cell = behind_cell(&parked.cell, &list, retired);
        Ok(History {
            cell,
            rows,
            count: 0,
            reserved: 0,
            clocks: parked.clocks,
            earlier: sent,
            base_len,
            uncounted: room,
            list,
        })
    }

    /// The list beside a journal to which nothing was added.
    pub fn into_list(self) -> GrowingList<RaisedEntry>
        ensures { result ≡ listed self.cell.name (history_of self.cell self.entries) }
    {
        let Self {
            cell: _cell,
            rows: _rows,
            count: _,
            reserved: _,
            clocks: _,
            earlier: _,
            base_len: _,
            uncounted: _,
            list,
        } = self;
        list
    }
}

/// Below how many entries of a whole history, and behind how many messages, a journal may begin, and for how many entries there is room beside
/// those that the settings allow.
const MOST_BEFORE: usize = 1 << 63;

const MOST_SENT: u128 = 1 << 126;

const MOST_ROOM: u64 = 1 << 31;

// No rows, with memory for so many.
fn rows_with(alloc: Global, retention: Retention, room: u64) -> Option<RetainedRows>
    requires { room ≤ 2 ^ 31 }
    ensures { IfSome result (λ r. (r.retention ≡ retention) × (r.all ≡ [])) }
{
    let mut rows = RetainedRows::new(alloc, retention)?;
    match rows.reserve(room as usize) {
        Ok(()) => Some(rows),
        Err(_) => None,
    }
}

// The same cell, behind all that this list has.
fn behind_cell(
    cell: &CellIdentity,
    list: &GrowingList<RaisedEntry>,
    retired: [bool; 64],
) -> CellIdentity
    ensures { result ≡ identity list.now.name cell.now.config cell.now.servers cell.now.clients list.now.items retired cell.now.retention }
{
    CellIdentity::new(
        list.beginning(),
        cell.config(),
        cell.servers(),
        cell.clients(),
        retired,
        cell.retention(),
    )
}

// The clocks with this entry more.
fn clocks_with(clocks: Clocks, cell: &CellIdentity, entry: &JournalEntry) -> Clocks
    ensures { result ≡ moved cell.now.config.skew_ms clocks entry.now.moment }
{
    let mut clocks = clocks;
    clocks.move_to(entry.moment().0, cell.config().skew_ms);
    clocks
}

fn add(rows: &mut RetainedRows, row: CountedEntry)
    requires room { HasRoom rows.old 1 }
    requires few { length rows.old.all < 2 ^ 63 }
    ensures retention { rows.new.retention ≡ rows.old.retention }
    ensures all { rows.new.all ≡ rows.old.all ++ row ∷ [] }
    ensures capacity { rows.new.capacity ≡ rows.old.capacity }
{
    rows.push(row);
}
