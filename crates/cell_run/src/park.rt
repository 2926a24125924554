//! Parks a running cell: its threads end, and its nodes come back.

ghost use Rattle.std.specs.Prelude.{◌≡◌, ◌≤◌, suc, [], true, None, IfOk, IfErr, IfSome, All, map, length, vec_len, vec_capacity};
ghost use Rattle.gfs_types.specs.Settings.{first_out_of_range};
ghost use Rattle.protocol_journal.specs.Journal.{sent_after};
ghost use Rattle.cell_journal.specs.Identity.{closed};
ghost use Rattle.cell_journal.specs.Log.{listed};
ghost use Rattle.cell_journal.specs.Rules.{IsJournalOf};
ghost use Rattle.cell_journal.specs.WholeHistories.{whole_of};
ghost use Rattle.cell_journal.specs.Writers.{IsParkedAt};
ghost use Rattle.cell_seats.specs.Journals.{joined, AreBehind};
ghost use Rattle.cell_seats.specs.ParkedNodes.{name_of, HasSeenAll};
ghost use Rattle.cell_nodes.specs.Nodes.{names_of};
ghost use Rattle.cell_run.specs.EndedCells.{IsEnded, IsBeside};
ghost use Rattle.cell_run.specs.Parked.{IsParked, IsNotParked, IsClosedSo, ArePartsOf, parked_state};

use crate::cell::{Cell, EndedCell};
use crate::park_fault::ParkFault;
use crate::parked::{Parked, ParkedParts};
use cell_journal::Beginning;
use cell_journal::closed_history::ClosedHistory;
use cell_journal::parked_history::ParkedHistory;
use cell_journal::raised_entry::RaisedEntry;
use cell_nodes::node_locks::{NodeLocks, ParkedNodes};
use cell_seats::journal::Journal;
use cell_seats::parked_node::ParkedNode;
use gfs_types::config::Config;
use running_nodes::parked_seat::ParkedSeat;
use running_nodes::running_client::Seat;
use running_nodes::running_server::RunningServer;
use std::alloc::{AllocError, Global};
use std::sync::Wait;
use std::thread::Threads;
use std::time::{Clock, Duration};

/// All memory that parking takes: lists in which there is room for the servers, for the seats, and for the seats on their way back.
#[derive(Drop)]
struct ParkRoom {
    servers: Vec<ParkedNode<RunningServer>>,
    seats: Vec<ParkedSeat>,
    back: Vec<Seat>,
}

impl Cell {
    /// Ends the cell's threads, and keeps its nodes, its history and these seats, which carry its name. A client whose seat is not handed in is
    /// refused from then on, until that is handed in to a later parking.
    ///
    /// - `Clock`: clocks were not kept. The cell was closed.
    /// - `NoMemory`: memory was refused. The cell runs on.
    pub fn park<R: Threads + Wait + Clock>(
        self,
        rt: &R,
        seats: Vec<Seat>,
    ) -> Result<Parked, ParkFault>
        requires { All (λ s. s.cell.name ≡ self.of.name) seats.items }
        ensures parked { IfOk result (IsParked self.of self.made seats.items) }
        ensures fault { IfErr result (IsNotParked self seats.items) }
    {
        let Ok(room) = self.room_to_park(seats.len()) else {
            return Err(ParkFault::NoMemory(self, seats));
        };
        let (locks, cell) = self.ended(rt);
        match park_in(rt, locks, cell, seats, room) {
            Ok(parked) => Ok(parked),
            Err((journal, seats)) => Err(ParkFault::Clock(journal, seats)),
        }
    }

    fn room_to_park(&self, seats: usize) -> Result<ParkRoom, AllocError>
        ensures servers { IfOk result (λ r. (r.servers.items ≡ []) × (self.now.of.servers ≤ vec_capacity r.servers)) }
        ensures seats { IfOk result (λ r. (r.seats.items ≡ []) × (seats ≤ vec_capacity r.seats)) }
        ensures back { IfOk result (λ r. (r.back.items ≡ []) × (seats ≤ vec_capacity r.back)) }
    {
        let mut room = ParkRoom {
            servers: Vec::new(self.alloc),
            seats: Vec::new(self.alloc),
            back: Vec::new(self.alloc),
        };
        room.servers.reserve(usize::from(self.registry.servers))?;
        room.seats.reserve(seats)?;
        room.back.reserve(seats)?;
        Ok(room)
    }
}

// Parks a cell whose threads have ended, in room that there is.
fn park_in<R: Wait + Clock>(
    rt: &R,
    locks: NodeLocks,
    cell: EndedCell,
    seats: Vec<Seat>,
    room: ParkRoom,
) -> Result<Parked, (Journal, Vec<Seat>)>
    requires locks { locks ≡ names_of cell.registry.writer.me.0.of cell.registry.servers }
    requires ended { IsEnded cell }
    requires named { All (λ s. s.cell.name ≡ cell.registry.writer.me.0.of.name) seats.items }
    requires none { (room.servers.items ≡ []) × (room.seats.items ≡ []) × (room.back.items ≡ []) }
    requires servers { cell.registry.servers ≤ vec_capacity room.servers }
    requires seats { (length seats.items ≤ vec_capacity room.seats) × (length seats.items ≤ vec_capacity room.back) }
    ensures parked { IfOk result (IsParked cell.registry.writer.me.0.of cell.made seats.items) }
    ensures closed { IfErr result (λ f. IsClosedSo cell.registry.writer.me.0.of seats.items f.0.now f.1.items) }
{
    park_cell(rt, cell, take_nodes(rt, locks, seats, room))
}

/// The nodes and the seats of a cell whose threads have ended, how many entries its history has, and room for the seats on their way back.
#[derive(Drop)]
struct TakenNodes {
    nodes: ParkedNodes,
    seats: Vec<ParkedSeat>,
    count: usize,
    back: Vec<Seat>,
}

// Takes the nodes out of their locks, and the clients out of their seats. Each saw as much as the master.
fn take_nodes<R: Wait + Clock>(
    rt: &R,
    locks: NodeLocks,
    seats: Vec<Seat>,
    room: ParkRoom,
) -> TakenNodes
    requires none { (room.servers.items ≡ []) × (room.seats.items ≡ []) × (room.back.items ≡ []) }
    requires servers { length locks ≤ suc (vec_capacity room.servers) }
    requires seats { (length seats.items ≤ vec_capacity room.seats) × (length seats.items ≤ vec_capacity room.back) }
    ensures names { map name_of result.nodes ≡ locks }
    ensures seen { All (λ p. HasSeenAll p.cell result.count p) result.nodes }
    ensures seats { map (λ p. p.seat) result.seats.items ≡ seats.items }
    ensures saw { All (λ p. IfSome p.saw (λ k. k ≡ result.count)) result.seats.items }
    ensures back { (result.back.items ≡ []) × (length result.seats.items ≤ vec_capacity result.back) }
{
    let ParkRoom {
        servers,
        seats: parked,
        back,
    } = room;
    let nodes = locks.park(rt, servers);
    let count = nodes.count();
    let seats = park_seats(rt, seats, count, parked);
    TakenNodes {
        nodes,
        seats,
        count,
        back,
    }
}

// Parks a cell whose nodes were taken out of their locks. Where clocks were not kept it is closed.
fn park_cell<R: Wait + Clock>(
    rt: &R,
    cell: EndedCell,
    taken: TakenNodes,
) -> Result<Parked, (Journal, Vec<Seat>)>
    requires ended { IsEnded cell }
    requires names { map name_of taken.nodes ≡ names_of cell.registry.writer.me.0.of cell.registry.servers }
    requires seen { All (λ p. HasSeenAll p.cell taken.count p) taken.nodes }
    requires named { All (λ s. s.cell.name ≡ cell.registry.writer.me.0.of.name) (map (λ p. p.seat) taken.seats.items) }
    requires saw { All (λ p. IfSome p.saw (λ k. k ≡ taken.count)) taken.seats.items }
    requires back { (taken.back.items ≡ []) × (length taken.seats.items ≤ vec_capacity taken.back) }
    ensures parked { IfOk result (IsParked cell.registry.writer.me.0.of cell.made (map (λ p. p.seat) taken.seats.items)) }
    ensures closed { IfErr result (λ f. IsClosedSo cell.registry.writer.me.0.of (map (λ p. p.seat) taken.seats.items) f.0.now f.1.items) }
{
    let (history, beside) = park_history(rt, cell, taken.count);
    let TakenNodes {
        nodes,
        seats,
        count: _,
        back,
    } = taken;
    let kept = history.history.are_clocks_kept();
    if kept {
        Ok(parked_with(history, beside, nodes, seats))
    } else {
        Err((journal_over(history, beside), seats_of(seats, back)))
    }
}

/// What a cell has beside its nodes, its seats and its history.
#[derive(Drop)]
struct BesideHistory {
    alloc: Global,
    config: Config,
    servers: u16,
    began: Duration,
    base: Vec<Journal>,
    nothing: Beginning<RaisedEntry>,
    made: u64,
}

// Parks the history of a cell, once it has so many entries.
fn park_history<R: Wait + Clock>(
    rt: &R,
    cell: EndedCell,
    count: usize,
) -> (ParkedHistory, BesideHistory)
    requires { IsEnded cell }
    ensures parked { IsParkedAt cell.registry.writer.me.0.of count result.0.history }
    ensures list { result.0.list ≡ listed result.0.history.cell.name (whole_of result.0.history) }
    ensures range { first_out_of_range result.0.history.cell.config ≡ None }
    ensures sent { result.0.sent ≡ length (sent_after [] (whole_of result.0.history)) }
    ensures same { (result.1.made ≡ cell.made) × (result.1.servers ≡ cell.registry.servers) }
    ensures base { (vec_len result.1.base ≤ 1) × AreBehind result.0.history.cell (joined result.1.base.items) }
    ensures beside { IsBeside result.0.history result.1.config result.1.nothing result.1.servers result.1.made }
{
    let EndedCell {
        alloc,
        registry,
        base,
        nothing,
        made,
    } = cell;
    let beside = BesideHistory {
        alloc,
        config: registry.config,
        servers: registry.servers,
        began: registry.shared.began,
        base,
        nothing,
        made,
    };
    (registry.park(rt, count), beside)
}

// The journal of a cell in which clocks were not kept. Its history is over.
fn journal_over(history: ParkedHistory, beside: BesideHistory) -> Journal
    requires list { history.list ≡ listed history.history.cell.name (whole_of history.history) }
    requires lawful { IsJournalOf history.history.cell history.history.entries }
    requires range { first_out_of_range history.history.cell.config ≡ None }
    requires base { (vec_len beside.base ≤ 1) × AreBehind history.history.cell (joined beside.base.items) }
    ensures { result.now ≡ closed history.history.cell history.history.entries true }
{
    let BesideHistory {
        alloc: _,
        config: _,
        servers: _,
        began: _,
        base,
        nothing: _nothing,
        made: _,
    } = beside;
    Journal::new(history.close(), base)
}

// The parked cell of a history, with its nodes and its seats.
fn parked_with(
    history: ParkedHistory,
    beside: BesideHistory,
    nodes: ParkedNodes,
    seats: Vec<ParkedSeat>,
) -> Parked
    requires list { history.list ≡ listed history.history.cell.name (whole_of history.history) }
    requires lawful { IsJournalOf history.history.cell history.history.entries }
    requires range { first_out_of_range history.history.cell.config ≡ None }
    requires base { (vec_len beside.base ≤ 1) × AreBehind history.history.cell (joined beside.base.items) }
    requires parts { ArePartsOf history.history beside.config beside.nothing history.sent nodes seats.items beside.servers beside.made }
    ensures { result ≡ parked_state history.history beside.made seats.items }
{
    let sent = history.sent;
    let greatest = history.greatest;
    let (history, list) = history.into_parts();
    parts_of(history, sent, greatest, beside, nodes, seats).with_list(list)
}

// The parts of a parked cell beside its list.
fn parts_of(
    history: ClosedHistory,
    sent: u128,
    greatest: u64,
    beside: BesideHistory,
    nodes: ParkedNodes,
    seats: Vec<ParkedSeat>,
) -> ParkedParts
    requires lawful { IsJournalOf history.cell history.entries }
    requires range { first_out_of_range history.cell.config ≡ None }
    requires base { (vec_len beside.base ≤ 1) × AreBehind history.cell (joined beside.base.items) }
    requires parts { ArePartsOf history beside.config beside.nothing sent nodes seats.items beside.servers beside.made }
    ensures { result ≡ parked_state history beside.made seats.items }
{
    let BesideHistory {
        alloc,
        config,
        servers,
        began,
        base,
        nothing,
        made,
    } = beside;
    ParkedParts {
        alloc,
        config,
        servers,
        began,
        made,
        journal: Journal::new(history, base),
        sent,
        greatest,
        nothing,
        nodes,
        seats,
    }
}

// Parks each seat, in their order.
fn park_seats<R: Wait>(
    rt: &R,
    seats: Vec<Seat>,
    count: usize,
    room: Vec<ParkedSeat>,
) -> Vec<ParkedSeat>
    requires none { room.items ≡ [] }
    requires room { length seats.items ≤ vec_capacity room }
    ensures seats { map (λ p. p.seat) result.items ≡ seats.items }
    ensures saw { All (λ p. IfSome p.saw (λ k. k ≡ count)) result.items }
{
    let mut parked = room;
    for seat in seats {
        parked.push_reserved(ParkedSeat::of(rt, seat, count));
    }
    parked
}

// The seats themselves, in their order.
fn seats_of(parked: Vec<ParkedSeat>, room: Vec<Seat>) -> Vec<Seat>
    requires none { room.items ≡ [] }
    requires room { length parked.items ≤ vec_capacity room }
    ensures { result.items ≡ map (λ p. p.seat) parked.items }
{
    let mut seats = room;
    for seat in parked {
        seats.push_reserved(seat.into_seat());
    }
    seats
}
