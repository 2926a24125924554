//! A cell that is parked.

ghost use Rattle.std.specs.Prelude.{◌≡◌, ◌≤◌, ◌<◌, ◌+◌, ℕ, [], true, false, length, get_or, All, IsSome, IsTrue};
ghost use Rattle.gfs_types.specs.declared.ids.Node.TheVariants.{Client, Master};
ghost use Rattle.protocol.specs.Sending.{the_server};
ghost use Rattle.protocol_journal.specs.Journal.{own};
ghost use Rattle.cell_journal.specs.Clocks.{are_clocks_kept};
ghost use Rattle.cell_journal.specs.Identity.{closed};
ghost use Rattle.cell_journal.specs.Log.{listed};
ghost use Rattle.cell_journal.specs.WholeHistories.{whole_of};
ghost use Rattle.cell_seats.specs.ParkedNodes.{IsLedBy};
ghost use Rattle.cell_nodes.specs.Nodes.{AreNodesOf};
ghost use Rattle.running_nodes.specs.Seatings.{IsSeatOf};
ghost use Rattle.running_nodes.specs.ParkedSeats.{count_anew};
ghost use Rattle.running_nodes.specs.Standing.{MasterStands, ServerStands};

use cell_journal::raised_entry::RaisedEntry;
use cell_journal::{Beginning, GrowingList};
use cell_nodes::node_locks::ParkedNodes;
use cell_nodes::running_master::RunningMaster;
use cell_seats::journal::Journal;
use gfs_types::config::Config;
use running_nodes::parked_seat::ParkedSeat;
use running_nodes::running_server::RunningServer;
use std::alloc::Global;
use std::marker::Model;
use std::time::Duration;

/// A cell whose threads have ended, without the list of its history: its journal, its nodes, and the seats that were handed in.
pub struct ParkedParts {
    pub(crate) alloc: Global,
    pub(crate) config: Config,
    pub(crate) servers: u16,
    pub(crate) began: Duration,
    pub(crate) made: u64,
    pub(crate) journal: Journal,
    /// How many messages the cell sent, its greatest moment, and the beginning of its list that has nothing.
    pub(crate) sent: u128,
    pub(crate) greatest: u64,
    pub(crate) nothing: Beginning<RaisedEntry>,
    pub(crate) nodes: ParkedNodes,
    pub(crate) seats: Vec<ParkedSeat>,
}

// Stands here, once, so that no crate above proves the drops of all that a cell owns.
impl Drop for ParkedParts {
    fn drop(self) {
        let Self {
            alloc: _,
            config: _,
            servers: _,
            began: _,
            made: _,
            journal: _journal,
            sent: _,
            greatest: _,
            nothing: _nothing,
            nodes: _nodes,
            seats: _seats,
        } = self;
    }
}

impl Model for ParkedParts {
    ghost use Rattle.cell_run.specs.Parked.{ParkedState, parked_state, ArePartsOf};

    ghost Value = { ParkedState };

    ghost view = { λ p. parked_state p.journal.now p.made p.seats.items };

    ghost invariant = { λ p. ArePartsOf p.journal.now p.config p.nothing p.sent p.nodes p.seats.items p.servers p.made };
}

impl ParkedParts {
    /// How many seats go on as clients of new numbers.
    pub(crate) fn count_anew(&self) -> u64
        ensures { result ≡ count_anew self.now.seats }
    {
        count_in(self.seats.as_slice())
    }

    /// How many clients are made once the cell goes on.
    pub(crate) fn made_then(&self) -> u64
        requires { self.now.made + count_anew self.now.seats ≤ 64 }
        ensures { result ≡ self.now.made + count_anew self.now.seats }
    {
        sum_of(self.made, self.count_anew())
    }

    fn server_count(&self) -> u16
        ensures { result ≡ self.now.journal.cell.servers }
    {
        self.servers
    }

    fn into_journal(self) -> Journal
        ensures { result.now ≡ self.journal }
    {
        let (kept, _nodes, _seats) = self.taken_apart();
        let KeptParts {
            alloc: _,
            made: _,
            journal,
            nothing: _nothing,
        } = kept;
        journal
    }

    // The master and the servers.
    fn nodes(&self) -> &ParkedNodes
        ensures { AreNodesOf self.now.journal.cell self.now.journal.cell.servers (length (whole_of self.now.journal)) result.now }
    {
        &self.nodes
    }

    /// Of which clients nothing more is written once the cell goes on: of all that were made but those whose seats go on as they are.
    pub(crate) fn retired_then(&self) -> [bool; 64]
        ensures { (k : ℕ) → self.now.made ≤ k → get_or result k false ≡ false }
    {
        without_stays(first_flags(self.made), self.made, self.seats.as_slice())
    }
}

fn sum_of(made: u64, anew: u64) -> u64
    requires { made + anew ≤ 64 }
    ensures { result ≡ made + anew }
{
    made + anew
}

#[tactic(auto, using(running_nodes::proofs::Anew::count_one_more, running_nodes::proofs::Anew::count_as_before))]
fn count_in(seats: &[ParkedSeat]) -> u64
    ensures { result ≡ count_anew seats.now }
{
    let mut count: u64 = 0;
    for seat in seats {
        let anew = seat.goes_anew();
        if anew {
            count += 1;
        }
    }
    count
}

#[tactic(auto, using(running_nodes::proofs::Anew::clients_more))]
fn all_have_clients(seats: &[ParkedSeat]) -> bool
    ensures { result ≡ true → All (λ s. IsSome s.saw) seats.now }
{
    for seat in seats {
        if !seat.has_client() {
            return false;
        }
    }
    true
}

// The flags of so many clients.
#[tactic(auto, using(running_nodes::proofs::Anew::others_stay))]
fn first_flags(count: u64) -> [bool; 64]
    requires { count ≤ 64 }
    ensures { (k : ℕ) → count ≤ k → get_or result k false ≡ false }
{
    let mut flags = [false; 64];
    for before in 0..count {
        flags[before as usize] = true;
    }
    flags
}

// Without those of the clients whose seats go on as they are.
#[tactic(auto, using(running_nodes::proofs::Anew::others_stay))]
fn without_stays(flags: [bool; 64], count: u64, seats: &[ParkedSeat]) -> [bool; 64]
    requires few { count ≤ 64 }
    requires down { (k : ℕ) → count ≤ k → get_or flags k false ≡ false }
    ensures { (k : ℕ) → count ≤ k → get_or result k false ≡ false }
{
    let mut left = flags;
    for seat in seats {
        let number = seat.number();
        if !seat.goes_anew() && number > 0 && number <= count {
            left[number as usize - 1] = false;
        }
    }
    left
}

/// What is left of a parked cell's parts once its nodes and its seats were taken.
#[derive(Drop)]
pub struct KeptParts {
    pub(crate) alloc: Global,
    pub(crate) made: u64,
    pub(crate) journal: Journal,
    pub(crate) nothing: Beginning<RaisedEntry>,
}

impl ParkedParts {
    /// Its nodes and its seats, and what is left.
    pub(crate) fn taken_apart(self) -> (KeptParts, ParkedNodes, Vec<ParkedSeat>)
        ensures kept { (result.0.journal.now ≡ self.journal) × (result.0.made ≡ self.made) }
        ensures nothing { result.0.nothing ≡ listed self.journal.cell.name [] }
        ensures least { 64 ≤ self.journal.cell.config.chunk }
        ensures clocks { IsTrue (are_clocks_kept self.journal.cell (whole_of self.journal)) }
        ensures fresh { (n : ℕ) → self.made < n → own (Client (record { 0 = n })) (whole_of self.journal) ≡ [] }
        ensures nodes { AreNodesOf self.journal.cell self.journal.cell.servers (length (whole_of self.journal)) result.1 }
        ensures seats { result.2.items ≡ self.seats }
        ensures seen { All (IsSeatOf self.journal.cell (length (whole_of self.journal))) result.2.items }
    {
        let Self {
            alloc,
            config: _,
            servers: _,
            began: _,
            made,
            journal,
            sent: _,
            greatest: _,
            nothing,
            nodes,
            seats,
        } = self;
        let kept = KeptParts {
            alloc,
            made,
            journal,
            nothing,
        };
        (kept, nodes, seats)
    }
}

/// A parked cell, which may go on.
pub struct Parked {
    pub(crate) parts: ParkedParts,
    pub(crate) list: GrowingList<RaisedEntry>,
}

// Stands here, once, so that no crate above proves the drops of all that a cell owns.
impl Drop for Parked {
    fn drop(self) {
        let Self {
            parts: _parts,
            list: _list,
        } = self;
    }
}

impl Model for Parked {
    ghost use Rattle.std.specs.Prelude.{◌≡◌};
    ghost use Rattle.cell_journal.specs.Log.{listed};
    ghost use Rattle.cell_journal.specs.WholeHistories.{whole_of};
    ghost use Rattle.cell_run.specs.Parked.{ParkedState};

    ghost Value = { ParkedState };

    ghost view = { λ p. p.parts };

    ghost invariant = { λ p. p.list ≡ listed p.parts.journal.cell.name (whole_of p.parts.journal) };
}

impl ParkedParts {
    /// The parked cell with the list of its history.
    pub(crate) fn with_list(self, list: GrowingList<RaisedEntry>) -> Parked
        requires { list ≡ listed self.journal.cell.name (whole_of self.journal) }
        ensures { result ≡ self }
    {
        Parked { parts: self, list }
    }
}

impl Parked {
    /// The journal up to which its cell is parked.
    pub fn journal(&self) -> &Journal
        ensures { result.now.now ≡ self.now.journal }
    {
        &self.parts.journal
    }

    /// How many servers it has.
    pub fn server_count(&self) -> u16
        ensures { result ≡ self.now.journal.cell.servers }
    {
        self.parts.server_count()
    }

    /// The master, as the cell's whole history left it.
    pub fn master(&self) -> &RunningMaster
        ensures { IsLedBy self.now.journal.cell Master (whole_of self.now.journal) (MasterStands result.now.node.master.state) }
    {
        let history = self.list.beginning();
        self.parts.nodes().led_master(&history)
    }

    /// The server of the next number behind this one, as the cell's whole history left it.
    pub fn server_behind(&self, before: u16) -> &RunningServer
        requires { before < self.now.journal.cell.servers }
        ensures { IsLedBy self.now.journal.cell (the_server (before + 1)) (whole_of self.now.journal) (ServerStands result.now.server) }
    {
        let history = self.list.beginning();
        self.parts.nodes().led_server(before, &history)
    }

    /// Its parts, and the list of its history.
    pub(crate) fn into_parts(self) -> (ParkedParts, GrowingList<RaisedEntry>)
        ensures parts { result.0 ≡ self }
        ensures list { result.1 ≡ listed self.journal.cell.name (whole_of self.journal) }
    {
        let Self { parts, list } = self;
        (parts, list)
    }

    /// The cell is closed as it was parked: nothing is added to its history any more.
    pub fn close(self) -> Journal
        ensures { result.now ≡ closed self.journal.cell self.journal.entries true }
    {
        let (parts, list) = self.into_parts();
        parts.into_journal().close(list)
    }

    /// Whether the client of each seat came out of it: none was left behind by an earlier parking.
    pub fn has_all_clients(&self) -> bool
        ensures { result ≡ true → All (λ s. IsSome s.saw) self.now.seats }
    {
        all_have_clients(self.parts.seats.as_slice())
    }
}
