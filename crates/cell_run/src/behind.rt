//! A parked cell with a journal behind its own, of which no node was touched yet.

ghost use Rattle.std.specs.Prelude.{◌≡◌, ◌≤◌, ◌<◌, ◌+◌, ℕ, [], false, get_or, length, vec_len, vec_capacity, All, IfOk, IfErr, IsTrue};
ghost use Rattle.std.specs.Arc.{arc_value};
ghost use Rattle.gfs_types.specs.declared.ids.Node.TheVariants.{Client};
ghost use Rattle.protocol_journal.specs.Journal.{own};
ghost use Rattle.cell_journal.specs.Clocks.{are_clocks_kept};
ghost use Rattle.cell_journal.specs.Identity.{Identity, filled};
ghost use Rattle.cell_journal.specs.Log.{listed};
ghost use Rattle.cell_journal.specs.Rules.{first_view};
ghost use Rattle.cell_journal.specs.WholeHistories.{whole_of};
ghost use Rattle.cell_seats.specs.Controls.{WritesControls, policy_in};
ghost use Rattle.cell_seats.specs.Journals.{joined, AreBehind};
ghost use Rattle.cell_seats.specs.Registries.{IsSameRegistry};
ghost use Rattle.cell_run.specs.Cells.{HasMade, cell_state};
ghost use Rattle.cell_nodes.specs.Nodes.{names_of};
ghost use Rattle.cell_run.specs.Parked.{IsResumed};
ghost use Rattle.running_nodes.specs.Seatings.{IsSeatOf, AllGoOver};
ghost use Rattle.running_nodes.specs.ParkedSeats.{count_anew};
ghost use Rattle.cell_run.specs.Resumed.{HasRoom, IsRoomFor, StandsBehind, behind_of};
ghost use Rattle.cell_run.specs.Starts.{IsOfMachine};
ghost use Rattle.cell_run.specs.declared.start_fault.StartFault.TheVariants.{NoMemory as OutOfMemory};

use crate::cell::{Cell, Thread, Ticker, end_all, start_node, ticks};
use crate::parked::{KeptParts, Parked, ParkedParts};
use crate::resume_room::{ClientRoom, ResumeMemory, ResumeRoom, ThreadRoom, resume_memory};
use crate::start_fault::StartFault;
use cell_journal::history::History;
use cell_journal::identity::CellIdentity;
use cell_journal::raised_entry::RaisedEntry;
use cell_journal::{GrowingList, JournalWriter, open_or_back, reclaim};
use cell_nodes::node_locks::NodeLocks;
use cell_seats::controls::{ControlWriter, Controls};
use cell_seats::gate::{Gate, OpenGate};
use cell_seats::journal::Journal;
use cell_seats::mailboxes::{Input, MailboxItem, MailboxSenders};
use cell_seats::node_lock::NodeLock;
use cell_seats::node_registry::NodeRegistry;
use cell_seats::shared_state::{STARTING, SharedState};
use cell_seats::stepper::Stepper;
use crossbeam_channel::Receiver;
use gfs_types::ids::{Node, ServerId};
use gfs_types::no_memory::NoMemory;
use running_nodes::client_places::client_places;
use running_nodes::parked_seat::ParkedSeat;
use running_nodes::running_client::Seat;
use running_nodes::seating::{Seating, seat_all};
use std::mem;
use std::sync::atomic::{AtomicU64, Ordering};
use std::sync::{Arc, Wait};
use std::thread::Threads;
use std::time::Clock;

/// The parked cell without its list, which lies in the table that the nodes share, and of which no node was registered.
pub struct Behind {
    pub parts: ParkedParts,
    pub registry: NodeRegistry,
    pub room: ResumeRoom,
    pub retired: [bool; 64],
}

// Stands here, once, so that no crate above proves the drops of all that a cell owns.
impl Drop for Behind {
    fn drop(self) {
        let Self {
            parts: _parts,
            registry: _registry,
            room: _room,
            retired: _,
        } = self;
    }
}

/// Makes the journal behind the parked one, and what the cell needs to go on but its threads. A fault gives the parked cell back.
pub fn begin<R: Wait + Clock>(
    rt: &R,
    parked: Parked,
) -> Result<(Behind, ThreadRoom), (Parked, StartFault)>
    requires { parked.made + count_anew parked.seats ≤ 64 }
    ensures parts { IfOk result (λ b. b.0.parts ≡ parked) }
    ensures stands { IfOk result (λ b. StandsBehind b.0.parts b.0.registry b.0.room b.0.retired) }
    ensures back { IfErr result (λ f. f.0 ≡ parked) }
    ensures why { IfErr result (λ f. f.1 ≡ OutOfMemory) }
{
    let (parts, list) = parked.into_parts();
    let retired = parts.retired_then();
    match list_behind(&parts, list, retired) {
        Ok(history) => begin_in(rt, parts, history, retired),
        Err(list) => Err((parts.with_list(list), StartFault::NoMemory)),
    }
}

// The journal behind the one that was parked, with room for the restarts of its nodes.
fn list_behind(
    parts: &ParkedParts,
    list: GrowingList<RaisedEntry>,
    retired: [bool; 64],
) -> Result<History, GrowingList<RaisedEntry>>
    requires { list ≡ listed parts.now.journal.cell.name (whole_of parts.now.journal) }
    ensures ok { IfOk result (λ h. h ≡ filled (behind_of parts.now.journal retired) [] 0) }
    ensures back { IfErr result (λ l. l ≡ list) }
{
    History::behind(
        parts.alloc,
        parts.journal.history(),
        list,
        parts.sent,
        retired,
        u64::from(parts.servers) + 1,
    )
}

fn begin_in<R: Wait + Clock>(
    rt: &R,
    parts: ParkedParts,
    history: History,
    retired: [bool; 64],
) -> Result<(Behind, ThreadRoom), (Parked, StartFault)>
    requires few { parts.made + count_anew parts.seats ≤ 64 }
    requires history { history ≡ filled (behind_of parts.journal retired) [] 0 }
    requires alive { (k : ℕ) → parts.made ≤ k → get_or retired k false ≡ false }
    ensures parts { IfOk result (λ b. b.0.parts ≡ parts) }
    ensures stands { IfOk result (λ b. StandsBehind b.0.parts b.0.registry b.0.room b.0.retired) }
    ensures back { IfErr result (λ f. f.0 ≡ parts) }
    ensures why { IfErr result (λ f. f.1 ≡ OutOfMemory) }
{
    match open_behind(rt, &parts, history) {
        Ok((registry, room, threads)) => Ok((
            Behind {
                parts,
                registry,
                room,
                retired,
            },
            threads,
        )),
        Err((list, fault)) => Err((parts.with_list(list), fault)),
    }
}

// Makes what the cell needs, and puts the journal into a table that the nodes share. A fault gives its list back.
fn open_behind<R: Wait + Clock>(
    rt: &R,
    parts: &ParkedParts,
    history: History,
) -> Result<(NodeRegistry, ResumeRoom, ThreadRoom), (GrowingList<RaisedEntry>, StartFault)>
    requires none { history.entries ≡ [] }
    requires few { parts.now.made + count_anew parts.now.seats ≤ 64 }
    requires settings { (history.cell.config ≡ parts.now.journal.cell.config) × (history.cell.servers ≡ parts.now.journal.cell.servers) × (history.cell.clients ≡ parts.now.journal.cell.clients) }
    ensures registry { IfOk result (λ r. (r.0.registered ≡ 0) × (r.0.cell ≡ history.cell) × (r.0.config ≡ history.cell.config) × (r.0.servers ≡ history.cell.servers)) }
    ensures room { IfOk result (λ r. HasRoom history.cell parts.now r.1) }
    ensures asks { IfOk result (λ r. WritesControls (arc_value r.0.shared).controls r.1.control_writer) }
    ensures back { IfErr result (λ f. f.0 ≡ listed history.cell.name history.cell.base) }
    ensures why { IfErr result (λ f. f.1 ≡ OutOfMemory) }
{
    match memory_for(parts, &history) {
        Ok(memory) => open_in(rt, parts, history, memory),
        Err(_) => Err((history.into_list(), StartFault::NoMemory)),
    }
}

fn memory_for(parts: &ParkedParts, history: &History) -> Result<ResumeMemory, NoMemory>
    requires { parts.now.made + count_anew parts.now.seats ≤ 64 }
    ensures room { IfOk result (λ m. HasRoom history.now.cell parts.now m.room) }
    ensures asks { IfOk result (λ m. WritesControls m.controls m.room.control_writer) }
{
    let cell = history.cell();
    resume_memory(parts, &cell)
}

// The same, in memory that is there.
fn open_in<R: Wait + Clock>(
    rt: &R,
    parts: &ParkedParts,
    history: History,
    memory: ResumeMemory,
) -> Result<(NodeRegistry, ResumeRoom, ThreadRoom), (GrowingList<RaisedEntry>, StartFault)>
    requires none { history.entries ≡ [] }
    requires settings { (history.cell.config ≡ parts.now.journal.cell.config) × (history.cell.servers ≡ parts.now.journal.cell.servers) × (history.cell.clients ≡ parts.now.journal.cell.clients) }
    requires room { HasRoom history.cell parts.now memory.room }
    requires asks { WritesControls memory.controls memory.room.control_writer }
    ensures registry { IfOk result (λ r. (r.0.registered ≡ 0) × (r.0.cell ≡ history.cell) × (r.0.config ≡ history.cell.config) × (r.0.servers ≡ history.cell.servers)) }
    ensures room { IfOk result (λ r. HasRoom history.cell parts.now r.1) }
    ensures asks { IfOk result (λ r. WritesControls (arc_value r.0.shared).controls r.1.control_writer) }
    ensures back { IfErr result (λ f. f.0 ≡ listed history.cell.name history.cell.base) }
    ensures why { IfErr result (λ f. f.1 ≡ OutOfMemory) }
{
    let ResumeMemory {
        senders,
        controls,
        room,
        threads,
    } = memory;
    match new_registry(rt, parts, history, senders, controls) {
        Ok(registry) => Ok((registry, room, threads)),
        Err(list) => Err((list, StartFault::NoMemory)),
    }
}

// Puts the journal into a table that the nodes share. Where memory is refused its list comes back.
fn new_registry<R: Wait + Clock>(
    rt: &R,
    parts: &ParkedParts,
    history: History,
    senders: MailboxSenders,
    controls: Controls,
) -> Result<NodeRegistry, GrowingList<RaisedEntry>>
    requires none { history.entries ≡ [] }
    requires settings { (history.cell.config ≡ parts.now.journal.cell.config) × (history.cell.servers ≡ parts.now.journal.cell.servers) × (history.cell.clients ≡ parts.now.journal.cell.clients) }
    ensures registry { IfOk result (λ r. (r.registered ≡ 0) × (r.cell ≡ history.cell) × (r.config ≡ history.cell.config) × (r.servers ≡ history.cell.servers)) }
    ensures controls { IfOk result (λ r. (arc_value r.shared).controls ≡ controls) }
    ensures back { IfErr result (λ l. l ≡ listed history.cell.name history.cell.base) }
{
    let cell = history.cell();
    match open_or_back(parts.alloc, history) {
        Ok((table, writer)) => {
            let shared = SharedState {
                table,
                senders,
                controls,
                began: parts.began,
                calling: AtomicU64::new(0),
                closing: AtomicU64::new(STARTING),
                answered: AtomicU64::new(0),
                events: AtomicU64::new(0),
                lost: AtomicU64::new(0),
            };
            registry_of(rt, parts, cell, shared, writer)
        }
        Err(history) => Err(history.into_list()),
    }
}

// The registry of a journal that has no entries, in what the nodes share. Where memory is refused the journal's list comes back.
#[tactic(auto, using(crate::proofs::Going::first_behind))]
fn registry_of<R: Wait + Clock>(
    rt: &R,
    parts: &ParkedParts,
    cell: CellIdentity,
    shared: SharedState,
    writer: JournalWriter,
) -> Result<NodeRegistry, GrowingList<RaisedEntry>>
    requires here { writer.table_id ≡ shared.table.shared.table_id }
    requires first { writer.me ≡ (first_view cell, []) }
    requires settings { (cell.config ≡ parts.now.journal.cell.config) × (cell.servers ≡ parts.now.journal.cell.servers) × (cell.clients ≡ parts.now.journal.cell.clients) }
    ensures registry { IfOk result (λ r. (r.registered ≡ 0) × (r.cell ≡ cell) × (r.config ≡ cell.config) × (r.servers ≡ cell.servers)) }
    ensures controls { IfOk result (λ r. (arc_value r.shared).controls ≡ shared.controls) }
    ensures back { IfErr result (λ l. l ≡ listed cell.name cell.base) }
{
    let mut writer = writer;
    parts.journal.history();
    match Arc::new(parts.alloc, shared) {
        Ok(shared) => Ok(NodeRegistry {
            shared,
            cell,
            config: parts.config,
            servers: parts.servers,
            registered: 0,
            writer,
        }),
        Err(refused) => Err(reclaim(rt, &refused.value.table.shared, &mut writer).into_list()),
    }
}

impl Behind {
    /// Starts the ticker and a thread for each node. They wait for the nodes.
    pub fn start_threads<
        R: Threads + Wait + Clock + Copy + Send + 'static,
        G: Gate + Clone + Send + Drop + 'static,
    >(&self, rt: R, threads: &mut ThreadRoom, gate: G) -> Result<Ticker, StartFault>
        ensures { IfErr result IsOfMachine }
    {
        let shared = &self.registry.shared;
        let servers = self.registry.servers;
        let alloc = self.parts.alloc;
        let ticker = ticks(rt, alloc, shared, servers)?;
        match start_all(rt, shared, servers, &self.room.locks, threads, gate) {
            Ok(()) => Ok(ticker),
            Err(fault) => {
                let nodes = mem::replace(&mut threads.threads, Vec::new(alloc));
                end_all(&rt, shared, servers, ticker, nodes);
                Err(fault)
            }
        }
    }

    /// The parked cell as it was.
    pub fn give_back<R: Wait + Clock>(self, rt: &R) -> Parked
        requires { StandsBehind self.parts self.registry self.room self.retired }
        ensures { result ≡ self.parts }
    {
        let Self {
            parts,
            registry,
            room: _room,
            retired: _,
        } = self;
        parts.with_list(registry.reclaim(rt).into_list())
    }

    /// Each node gets its place and lies in its lock, the seats go over, each node begins again or, if it can't, is down, and the threads take
    /// steps.
    pub fn go_on<R: Wait + Clock>(
        self,
        rt: &R,
        ticker: Ticker,
        threads: Vec<Thread>,
    ) -> (Cell, Vec<Seat>)
        requires { StandsBehind self.parts self.registry self.room self.retired }
        ensures { IsResumed self.parts result.0 result.1.items }
    {
        let Self {
            parts,
            mut registry,
            room,
            retired,
        } = self;
        let ResumeRoom {
            control_writer,
            locks,
            clients,
            base,
        } = room;
        let made = parts.made_then();
        let (kept, nodes, parked) = parts.taken_apart();
        locks.put_all(rt, kept.alloc, &mut registry, nodes);
        let (seats, inboxes) = seats_over(rt, &mut registry, &kept, made, retired, parked, clients);
        begin_again(rt, &registry.shared, &locks);
        let places = CellPlaces {
            registry,
            locks,
            inboxes,
            made,
        };
        (
            cell_of(kept, places, base, control_writer, ticker, threads),
            seats,
        )
    }
}

/// What a cell that goes on has once its nodes and its seats have their places.
#[derive(Drop)]
struct CellPlaces {
    registry: NodeRegistry,
    locks: NodeLocks,
    inboxes: Vec<Receiver<MailboxItem>>,
    made: u64,
}

// The cell itself.
fn cell_of(
    kept: KeptParts,
    places: CellPlaces,
    base: Vec<Journal>,
    control_writer: ControlWriter,
    ticker: Ticker,
    threads: Vec<Thread>,
) -> Cell
    requires made { HasMade places.registry.config places.registry.servers places.registry.registered places.made (vec_len places.inboxes) places.registry.writer.me.0.of kept.nothing (arc_value places.registry.shared).controls control_writer }
    requires locks { places.locks ≡ names_of places.registry.writer.me.0.of places.registry.servers }
    requires base { (base.items ≡ []) × (1 ≤ vec_capacity base) }
    requires behind { (places.registry.writer.me.0.of.base ≡ whole_of kept.journal.now) × (places.registry.writer.me.0.of.name ≡ kept.journal.now.cell.name) }
    ensures { result ≡ cell_state places.registry.writer.me.0.of places.made (policy_in control_writer.policy.me.0) control_writer.restarts.me.0 }
{
    let KeptParts {
        alloc,
        made: _,
        journal,
        nothing,
    } = kept;
    let CellPlaces {
        registry,
        locks,
        inboxes,
        made,
    } = places;
    Cell {
        alloc,
        registry,
        locks,
        base: base_of(base, journal),
        nothing,
        inboxes,
        made,
        control_writer,
        ticker,
        nodes: threads,
    }
}

// The journal up to which the cell was parked, in room that there is.
#[tactic(auto, using(crate::proofs::Going::behind_one))]
fn base_of(room: Vec<Journal>, journal: Journal) -> Vec<Journal>
    requires { (room.items ≡ []) × (1 ≤ vec_capacity room) }
    ensures one { vec_len result ≡ 1 }
    ensures behind { (cell : Identity) → cell.base ≡ whole_of journal.now → cell.name ≡ journal.now.cell.name → AreBehind cell (joined result.items) }
{
    journal.history();
    let mut base = room;
    base.push_reserved(journal);
    base
}

// The seats go over to the places of their clients. Beside them the mailboxes of the clients that were not made.
fn seats_over<R: Wait + Clock>(
    rt: &R,
    registry: &mut NodeRegistry,
    kept: &KeptParts,
    made: u64,
    retired: [bool; 64],
    parked: Vec<ParkedSeat>,
    room: ClientRoom,
) -> (Vec<Seat>, Vec<Receiver<MailboxItem>>)
    requires registered { registry.old.registered ≡ registry.old.servers + 1 }
    requires cell { registry.old.cell ≡ behind_of kept.now.journal.now retired }
    requires settings { (registry.old.config ≡ kept.now.journal.now.cell.config) × (kept.now.journal.now.cell.clients ≡ 64) }
    requires made { (kept.now.made ≤ made) × (made ≤ 64) }
    requires room { IsRoomFor kept.now.journal.now.cell.config kept.now.made (length parked.items) room }
    requires seats { All (IsSeatOf registry.old.cell (length registry.old.cell.base)) parked.items }
    requires fresh { (n : ℕ) → kept.now.made < n → own (Client (record { 0 = n })) registry.old.cell.base ≡ [] }
    requires clocks { IsTrue (are_clocks_kept registry.old.cell registry.old.cell.base) }
    ensures same { IsSameRegistry registry.old registry.new }
    ensures registered { registry.new.registered ≡ registry.old.servers + 1 + made }
    ensures boxes { vec_len result.1 + made ≡ 64 }
    ensures over { AllGoOver registry.old.cell parked.items result.0.items }
{
    let ClientRoom {
        anew,
        inboxes,
        places,
        seats,
    } = room;
    let (places, inboxes) = client_places(rt, registry, &retired, made, inboxes, places);
    let mut seating = Seating {
        alloc: kept.alloc,
        cell: registry.cell.again(),
        base_len: kept.journal.history().whole_len() as u64,
        config: registry.config,
        retired,
        made: kept.made,
        places,
        clients: anew,
        taken: 0,
    };
    (seat_all(rt, &mut seating, parked, seats), inboxes)
}

// Starts a thread for each node.
fn start_all<
    R: Threads + Wait + Clock + Copy + Send + 'static,
    G: Gate + Clone + Send + Drop + 'static,
>(
    rt: R,
    shared: &Arc<SharedState>,
    servers: u16,
    locks: &NodeLocks,
    room: &mut ThreadRoom,
    gate: G,
) -> Result<(), StartFault>
    ensures { IfErr result IsOfMachine }
{
    let master = room.master.take();
    let threads = &mut room.threads;
    start_at(
        rt,
        shared,
        threads,
        &locks.master,
        Node::Master,
        master,
        &gate,
    )?;
    for before in 0..servers {
        let Some(lock) = locks.servers.get(usize::from(before)) else {
            return Err(StartFault::Thread);
        };
        let inbox = room.servers.pop();
        let node = Node::Server(ServerId(before + 1));
        start_at(rt, shared, &mut room.threads, lock, node, inbox, &gate)?;
    }
    Ok(())
}

// Starts a thread for a node, whose mailbox is there.
fn start_at<
    R: Threads + Wait + Clock + Copy + Send + 'static,
    N: Stepper + Send + Drop + 'static,
    G: Gate + Clone + Send + Drop + 'static,
>(
    rt: R,
    shared: &Arc<SharedState>,
    threads: &mut Vec<Thread>,
    lock: &Arc<NodeLock<N>>,
    node: Node,
    inbox: Option<Receiver<MailboxItem>>,
    gate: &G,
) -> Result<(), StartFault>
    ensures { IfErr result IsOfMachine }
{
    let Some(inbox) = inbox else {
        return Err(StartFault::Thread);
    };
    let theirs = Arc::try_clone(shared)?;
    start_node(rt, theirs, threads, lock, node, inbox, gate.clone()?)
}

// The master and each server begin again, by what their log or store holds, or are down where they can't; and the threads take steps from then on.
fn begin_again<R: Wait + Clock>(rt: &R, shared: &SharedState, locks: &NodeLocks) {
    locks.master.act(rt, Input::Restart, &OpenGate);
    for lock in locks.servers.as_slice() {
        lock.act(rt, Input::Restart, &OpenGate);
    }
    shared.events.store(0, Ordering::SeqCst);
    shared.closing.store(0, Ordering::SeqCst);
}
