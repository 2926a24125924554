//! A running cell.

ghost use Rattle.std.specs.Prelude.{◌≡◌, ◌+◌, ◌≤◌, ◌<◌, [], None, IfOk, IfErr, OnOk, OnErr, IsTrue, true, false, vec_len, replicate};
ghost use Rattle.std.specs.Arc.{arc_value};
ghost use Rattle.gfs_types.specs.Settings.{first_out_of_range};
ghost use Rattle.headline.specs.Journals.{AreExplained};
ghost use Rattle.cell_journal.specs.Clocks.{are_clocks_kept};
ghost use Rattle.cell_journal.specs.Log.{listed};
ghost use Rattle.cell_journal.specs.Rules.{IsJournalOf};
ghost use Rattle.cell_journal.specs.declared.retention.Retention.TheVariants.{Whole};
ghost use Rattle.cell_journal.specs.WholeHistories.{whole_of};
ghost use Rattle.gfs_types.specs.declared.ids.Node.TheVariants.{Master, Server};
ghost use Rattle.cell_nodes.specs.NewNodes.{IsFitting};
ghost use Rattle.cell_nodes.specs.Nodes.{names_of};
ghost use Rattle.cell_seats.specs.NodeLocks.{node_name};
ghost use Rattle.cell_seats.specs.Registries.{IsSameRegistry};
ghost use Rattle.cell_seats.specs.Controls.{WritesControls, no_policy, policy_in};
ghost use Rattle.memory_nodes.specs.Starts.{is_count};
ghost use Rattle.cell_run.specs.EndedCells.{IsEnded};
ghost use Rattle.cell_run.specs.Cells.{IsCellOf, IsNewCell, IsNewSeat, IsSeatFault, more, with_policy, asked_again};
ghost use Rattle.cell_run.specs.Starts.{IsOfMachine, IsStartFault, bad_start};

use crate::client_slot::client_slot;
use crate::seat_fault::SeatFault;
pub use crate::start_fault::StartFault;
use crate::threads::{serve, stop_all, tick, wait_for_clients};
use crate::watch::{Watch, Watcher, tell_on};
use cell_journal::history::History;
use cell_journal::raised_entry::RaisedEntry;
use cell_journal::{Beginning, Retention, open};
use cell_nodes::keep::keep;
use cell_nodes::node_locks::{NodeLocks, new_lock};
use cell_nodes::node_slots::{are_fitting, master_slot, server_slot};
use cell_nodes::running_master::RunningMaster;
use cell_seats::controls::{ControlWriter, new_controls};
use cell_seats::gate::Gate;
use cell_seats::journal::Journal;
use cell_seats::mailboxes::{Input, MailboxItem, MailboxSenders, Mailboxes, Policy};
use cell_seats::node_lock::NodeLock;
use cell_seats::node_registry::NodeRegistry;
use cell_seats::shared_state::{CLOSING, ENDED, MOST_CLIENTS, SharedState};
use cell_seats::stepper::Stepper;
use crossbeam_channel::{Receiver, Sender, unbounded};
use gfs_types::config::Config;
use gfs_types::ids::{ClientId, Node, ServerId};
pub use running_nodes::running_client::Seat;
use running_nodes::running_server::RunningServer;
use std::alloc::Global;
use std::marker::Model;
use std::sync::atomic::{AtomicU64, Ordering};
use std::sync::{Arc, Wait};
use std::thread;
use std::thread::{JoinHandle, Threads};
use std::time::{Clock, Duration};

/// How many servers a cell may have.
pub const MOST_SERVERS: u16 = 64;

pub(crate) type Thread = JoinHandle<()>;

/// The thread that tells the nodes that time passes, until its sending end is gone.
#[derive(Drop)]
pub(crate) struct Ticker {
    stop: Sender<()>,
    thread: Thread,
}

impl Ticker {
    fn end(self, rt: &impl Threads) {
        let Self { stop, thread } = self;
        drop(stop);
        thread.join(rt);
    }
}

/// A cell whose nodes run on threads. One that is dropped and not closed goes on, and its nodes tick no more.
pub struct Cell {
    pub(crate) alloc: Global,
    pub(crate) registry: NodeRegistry,
    pub(crate) locks: NodeLocks,
    /// The journal up to which it was parked last, if it was.
    pub(crate) base: Vec<Journal>,
    /// The journal with no step in it, which is what a new client has seen.
    pub(crate) nothing: Beginning<RaisedEntry>,
    /// The mailboxes of the clients from the next one on, the next one's last.
    pub(crate) inboxes: Vec<Receiver<MailboxItem>>,
    /// How many clients were made.
    pub(crate) made: u64,
    /// What asks something of the network and the nodes.
    pub(crate) control_writer: ControlWriter,
    pub(crate) ticker: Ticker,
    pub(crate) nodes: Vec<Thread>,
}

// Stands here, once, so that no crate above proves the drops of all that a cell owns.
impl Drop for Cell {
    fn drop(self) {
        let Self {
            alloc: _,
            registry: _registry,
            locks: _locks,
            base: _base,
            nothing: _nothing,
            inboxes: _inboxes,
            made: _,
            control_writer: _control_writer,
            ticker: _ticker,
            nodes: _nodes,
        } = self;
    }
}

impl Model for Cell {
    ghost use Rattle.std.specs.Prelude.{◌≡◌, ◌≤◌, vec_len};
    ghost use Rattle.std.specs.Arc.{arc_value};
    ghost use Rattle.cell_seats.specs.Controls.{policy_in};
    ghost use Rattle.cell_seats.specs.Journals.{joined, AreBehind};
    ghost use Rattle.cell_nodes.specs.Nodes.{names_of};
    ghost use Rattle.cell_run.specs.Cells.{CellState, cell_state, HasMade};

    ghost Value = { CellState };

    ghost view = { λ c. cell_state c.registry.writer.me.0.of c.made (policy_in c.control_writer.policy.me.0) c.control_writer.restarts.me.0 };

    ghost invariant = { λ c. HasMade c.registry.config c.registry.servers c.registry.registered c.made (vec_len c.inboxes) c.registry.writer.me.0.of c.nothing (arc_value c.registry.shared).controls c.control_writer × (c.locks ≡ names_of c.registry.writer.me.0.of c.registry.servers) × (vec_len c.base ≤ 1) × AreBehind c.registry.writer.me.0.of (joined c.base.items) };
}

impl Cell {
    /// Starts a cell: its master and each server on a thread of its own, and a ticker.
    ///
    /// - `Config`: a setting is out of its range.
    /// - `Count`: there are no servers, or too many.
    /// - `NoMemory`, `Thread`, `Clock`: no memory, no thread or no clock was to be had. What runs is told to stop.
    pub fn start<
        R: Threads + Wait + Clock + Copy + Send + 'static,
        G: Gate + Clone + Send + Drop + 'static,
    >(rt: R, alloc: Global, config: Config, servers: u16, gate: G) -> Result<Cell, StartFault>
        ensures cell { IfOk result (λ cell. IsNewCell config servers Whole cell) }
        ensures good { OnOk result (bad_start config servers ≡ None) }
        ensures fault { IfErr result (IsStartFault (bad_start config servers)) }
    {
        Cell::start_retaining(rt, alloc, config, servers, Retention::Whole, gate)
    }

    /// The same, where only these entries of the journal stay in memory. Where that is the last so many, there may be 2^62 entries, whatever the
    /// setting `journal` is: messages of entries that were let go are lost.
    pub fn start_retaining<
        R: Threads + Wait + Clock + Copy + Send + 'static,
        G: Gate + Clone + Send + Drop + 'static,
    >(
        rt: R,
        alloc: Global,
        config: Config,
        servers: u16,
        retention: Retention,
        gate: G,
    ) -> Result<Cell, StartFault>
        ensures cell { IfOk result (λ cell. IsNewCell config servers retention cell) }
        ensures good { OnOk result (bad_start config servers ≡ None) }
        ensures fault { IfErr result (IsStartFault (bad_start config servers)) }
    {
        if !are_fitting(&config) {
            return Err(StartFault::Config);
        }
        if !is_count(servers) {
            return Err(StartFault::Count);
        }
        let Ok(began) = rt.monotonic() else {
            return Err(StartFault::Clock);
        };
        let made = new_registry(alloc, config, servers, retention, began)?;
        let ticker = ticks(rt, alloc, &made.registry.shared, servers)?;
        start_with(rt, alloc, made, ticker, gate)
    }

    /// The next client, which has seen nothing of the journal yet. A fault leaves the cell as it was.
    ///
    /// - `Many`: as many as there may be were made. So it is always then, and never before.
    /// - `NoMemory`: memory was refused.
    pub fn client(&mut self) -> Result<Seat, SeatFault>
        ensures ok { OnOk result ((self.old.made < 64) × (self.new ≡ more self.old)) }
        ensures err { OnErr result (self.new ≡ self.old) }
        ensures seat { IfOk result (λ s. IsNewSeat self.old s) }
        ensures fault { IfErr result (IsSeatFault self.old) }
    {
        if self.made >= MOST_CLIENTS {
            return Err(SeatFault::Many);
        }
        let id = ClientId(self.made + 1);
        let bit = 1u64 << self.made;
        let Ok(slot) = client_slot(self.alloc, &mut self.registry, id) else {
            return Err(SeatFault::NoMemory);
        };
        self.made += 1;
        match self.inboxes.pop() {
            Some(inbox) => Ok(Seat::new(slot, inbox, self.nothing.again(), 0, bit)),
            None => unreachable!(),
        }
    }

    /// The network's policy is this from now on.
    pub fn net(&mut self, policy: Policy)
        ensures { self.new ≡ with_policy self.old policy }
    {
        self.control_writer
            .set_policy(&self.registry.shared.controls, policy);
    }

    /// The master or a server is asked once more to begin again. Before it takes a message or a tick it tries that once, if it did so less often. A
    /// client never does.
    pub fn restart(&mut self, rt: &impl Wait, node: Node)
        ensures { self.new ≡ asked_again self.old node }
    {
        self.control_writer
            .ask_restart(&self.registry.shared.controls, node);
        if let Node::Client(_) = node {
            return;
        }
        self.registry
            .shared
            .senders
            .put(rt, node, MailboxItem::Take(Input::Tick));
    }

    /// Tells a watcher how far the cell is, once a second, on a thread of its own, until the watch is stopped. None: no memory or no thread was to
    /// be had for it.
    pub fn watch<
        R: Threads + Wait + Clock + Copy + Send + 'static,
        W: Watcher + Send + Drop + 'static,
    >(&self, rt: R, watcher: W) -> Option<Watch<W>> {
        let theirs = Arc::try_clone(&self.registry.shared).ok()?;
        let most = self.most_entries();
        let (stop, stopped) = unbounded(self.alloc).ok()?;
        let job = move || tell_on(&rt, &theirs, most, &stopped, watcher);
        match thread::spawn(&rt, job) {
            Ok(thread) => Some(Watch { stop, thread }),
            Err(_) => None,
        }
    }

    /// For how many steps more there is room in the journal, those under way not taken off.
    pub fn room(&self) -> u64 {
        self.registry.shared.progress(self.most_entries()).room
    }

    /// How often a step found its message let go, since the cell began or was resumed; behind a gate that isn't open, at the master and the servers only
    /// where the gate was told of it.
    pub fn lost(&self) -> u64 {
        self.registry.shared.progress(self.most_entries()).lost
    }

    // How many steps its journal may have.
    fn most_entries(&self) -> u64 {
        let journal = u64::from(self.registry.config.journal);
        self.registry.cell.retention().most_entries(journal)
    }

    /// Ends the cell: no step is begun any more, each call that waits is refused, and the threads end. No step follows. Where clocks were
    /// kept, the cell's calls and answers are a run of the machine.
    pub fn close<R: Threads + Wait + Clock>(self, rt: &R) -> Journal
        ensures cell { result.now.cell ≡ self.of }
        ensures over { result.now.is_over ≡ true }
        ensures lawful { IsJournalOf result.now.cell result.now.entries }
        ensures explained { IsTrue (are_clocks_kept result.now.cell (whole_of result.now)) → AreExplained result.now.cell.config (whole_of result.now) }
    {
        let Self {
            alloc: _,
            registry,
            locks: _locks,
            base,
            nothing: _nothing,
            inboxes: _inboxes,
            made: _,
            control_writer: _control_writer,
            ticker,
            nodes,
        } = self;
        end_all(rt, &registry.shared, registry.servers, ticker, nodes);
        registry.close(rt, base)
    }

    /// The locks of its nodes, and what else it has, once its threads have ended. The journal is not closed.
    pub(crate) fn ended<R: Threads + Wait + Clock>(self, rt: &R) -> (NodeLocks, EndedCell)
        ensures cell { (result.1.registry.writer.me.0.of ≡ self.of) × (result.1.made ≡ self.made) }
        ensures locks { result.0 ≡ names_of result.1.registry.writer.me.0.of result.1.registry.servers }
        ensures ended { IsEnded result.1 }
    {
        let Self {
            alloc,
            registry,
            locks,
            base,
            nothing,
            inboxes: _inboxes,
            made,
            control_writer: _control_writer,
            ticker,
            nodes,
        } = self;
        end_all(rt, &registry.shared, registry.servers, ticker, nodes);
        let cell = EndedCell {
            alloc,
            registry,
            base,
            nothing,
            made,
        };
        (locks, cell)
    }
}

// Whether a cell may have so many servers.
fn is_count(servers: u16) -> bool
    ensures { result ≡ is_count servers }
{
    (1..=MOST_SERVERS).contains(&servers)
}

/// A cell whose threads have ended, without the locks of its nodes. Its journal is not closed.
#[derive(Drop)]
pub struct EndedCell {
    pub alloc: Global,
    pub registry: NodeRegistry,
    pub base: Vec<Journal>,
    pub nothing: Beginning<RaisedEntry>,
    pub made: u64,
}

/// What a cell has before its first node runs.
#[derive(Drop)]
struct Parts {
    registry: NodeRegistry,
    nothing: Beginning<RaisedEntry>,
    boxes: Mailboxes,
    control_writer: ControlWriter,
}

// A cell whose ticker runs.
fn start_with<
    R: Threads + Wait + Clock + Copy + Send + 'static,
    G: Gate + Clone + Send + Drop + 'static,
>(rt: R, alloc: Global, parts: Parts, ticker: Ticker, gate: G) -> Result<Cell, StartFault>
    requires fits { IsFitting parts.registry.config }
    requires first { parts.registry.registered ≡ 0 }
    requires base { parts.registry.writer.me.0.of.base ≡ [] }
    requires retired { parts.registry.writer.me.0.of.retired ≡ replicate 64 false }
    requires nothing { parts.nothing ≡ listed parts.registry.writer.me.0.of.name [] }
    requires boxes { vec_len parts.boxes.clients ≡ 64 }
    requires asks { WritesControls (arc_value parts.registry.shared).controls parts.control_writer }
    requires policy { policy_in parts.control_writer.policy.me.0 ≡ no_policy }
    requires restarts { parts.control_writer.restarts.me.0 ≡ replicate 66 0 }
    ensures cell { IfOk result (λ cell. IsNewCell parts.registry.config parts.registry.servers parts.registry.writer.me.0.of.retention cell) }
    ensures fault { IfErr result IsOfMachine }
{
    let Parts {
        mut registry,
        nothing,
        boxes,
        control_writer,
    } = parts;
    let mut nodes = Vec::new(alloc);
    let Mailboxes {
        master,
        servers,
        clients,
    } = boxes;
    match start_nodes(rt, alloc, &mut registry, &mut nodes, master, servers, gate) {
        Ok(locks) => {
            let mut inboxes = clients;
            inboxes.reverse();
            Ok(Cell {
                alloc,
                registry,
                locks,
                base: Vec::new(alloc),
                nothing,
                inboxes,
                made: 0,
                control_writer,
                ticker,
                nodes,
            })
        }
        Err(fault) => {
            end_all(&rt, &registry.shared, registry.servers, ticker, nodes);
            Err(fault)
        }
    }
}

// Starts the master and the servers, each under its lock.
fn start_nodes<
    R: Threads + Wait + Clock + Copy + Send + 'static,
    G: Gate + Clone + Send + Drop + 'static,
>(
    rt: R,
    alloc: Global,
    registry: &mut NodeRegistry,
    nodes: &mut Vec<Thread>,
    master: Receiver<MailboxItem>,
    servers: Vec<Receiver<MailboxItem>>,
    gate: G,
) -> Result<NodeLocks, StartFault>
    requires fits { IsFitting registry.old.config }
    requires first { registry.old.registered ≡ 0 }
    requires base { registry.old.writer.me.0.of.base ≡ [] }
    ensures same { IsSameRegistry registry.old registry.new }
    ensures ok { OnOk result (registry.new.registered ≡ registry.old.servers + 1) }
    ensures locks { IfOk result (λ l. l ≡ names_of registry.new.cell registry.new.servers) }
    ensures fault { IfErr result IsOfMachine }
{
    let master = start_master(rt, alloc, registry, nodes, master, gate.clone()?)?;
    let mut locks = Vec::new(alloc);
    let mut inboxes = servers;
    inboxes.reverse();
    for before in 0..registry.servers {
        let Some(inbox) = inboxes.pop() else {
            return Err(StartFault::Thread);
        };
        let id = ServerId(before + 1);
        let lock = start_server(rt, alloc, registry, nodes, id, inbox, gate.clone()?)?;
        keep(&mut locks, lock)?;
    }
    Ok(NodeLocks {
        master,
        servers: locks,
    })
}

fn start_master<R: Threads + Wait + Clock + Copy + Send + 'static, G: Gate + Send + Drop + 'static>(
    rt: R,
    alloc: Global,
    registry: &mut NodeRegistry,
    nodes: &mut Vec<Thread>,
    inbox: Receiver<MailboxItem>,
    gate: G,
) -> Result<Arc<NodeLock<RunningMaster>>, StartFault>
    requires fits { IsFitting registry.old.config }
    requires first { registry.old.registered ≡ 0 }
    requires base { registry.old.writer.me.0.of.base ≡ [] }
    ensures same { IsSameRegistry registry.old registry.new }
    ensures ok { OnOk result (registry.new.registered ≡ 1) }
    ensures lock { IfOk result (λ l. arc_value l ≡ node_name registry.new.cell Master) }
    ensures fault { IfErr result IsOfMachine }
{
    let slot = master_slot(alloc, registry)?;
    let lock: Arc<NodeLock<RunningMaster>> = new_lock(alloc, &registry.cell, Node::Master)?;
    lock.put(&rt, slot);
    let shared = Arc::try_clone(&registry.shared)?;
    start_node(rt, shared, nodes, &lock, Node::Master, inbox, gate)?;
    Ok(lock)
}

fn start_server<R: Threads + Wait + Clock + Copy + Send + 'static, G: Gate + Send + Drop + 'static>(
    rt: R,
    alloc: Global,
    registry: &mut NodeRegistry,
    nodes: &mut Vec<Thread>,
    id: ServerId,
    inbox: Receiver<MailboxItem>,
    gate: G,
) -> Result<Arc<NodeLock<RunningServer>>, StartFault>
    requires fits { IsFitting registry.old.config }
    requires next { (registry.old.registered ≡ id.0) × (0 < id.0) × (id.0 ≤ registry.old.servers) }
    requires base { registry.old.writer.me.0.of.base ≡ [] }
    ensures same { IsSameRegistry registry.old registry.new }
    ensures ok { OnOk result (registry.new.registered ≡ id.0 + 1) }
    ensures lock { IfOk result (λ l. arc_value l ≡ node_name registry.new.cell (Server id)) }
    ensures fault { IfErr result IsOfMachine }
{
    let slot = server_slot(alloc, registry, id)?;
    let lock: Arc<NodeLock<RunningServer>> = new_lock(alloc, &registry.cell, Node::Server(id))?;
    lock.put(&rt, slot);
    let shared = Arc::try_clone(&registry.shared)?;
    start_node(rt, shared, nodes, &lock, Node::Server(id), inbox, gate)?;
    Ok(lock)
}

// Starts the thread of a node.
pub(crate) fn start_node<
    R: Threads + Wait + Clock + Copy + Send + 'static,
    N: Stepper + Send + Drop + 'static,
    G: Gate + Send + Drop + 'static,
>(
    rt: R,
    shared: Arc<SharedState>,
    nodes: &mut Vec<Thread>,
    lock: &Arc<NodeLock<N>>,
    node: Node,
    inbox: Receiver<MailboxItem>,
    gate: G,
) -> Result<(), StartFault>
    ensures { IfErr result IsOfMachine }
{
    let lock = Arc::try_clone(lock)?;
    keep(nodes, runs(rt, shared, node, lock, inbox, gate)?)?;
    Ok(())
}

// No step is begun any more. The ticker says so until the nodes have ended and no client waits.
pub(crate) fn end_all<R: Threads + Wait + Clock>(
    rt: &R,
    shared: &SharedState,
    servers: u16,
    ticker: Ticker,
    nodes: Vec<Thread>,
) {
    shared.closing.store(CLOSING, Ordering::SeqCst);
    stop_all(rt, shared, servers);
    for node in nodes {
        node.join(rt);
    }
    wait_for_clients(rt, shared);
    shared.closing.store(ENDED, Ordering::SeqCst);
    ticker.end(rt);
}

fn new_registry(
    alloc: Global,
    config: Config,
    servers: u16,
    retention: Retention,
    began: Duration,
) -> Result<Parts, StartFault>
    requires { first_out_of_range config ≡ None }
    ensures registry { IfOk result (λ p. (p.registry.config ≡ config) × (p.registry.servers ≡ servers) × (p.registry.registered ≡ 0)) }
    ensures base { IfOk result (λ p. p.registry.writer.me.0.of.base ≡ []) }
    ensures retired { IfOk result (λ p. p.registry.writer.me.0.of.retired ≡ replicate 64 false) }
    ensures retention { IfOk result (λ p. p.registry.writer.me.0.of.retention ≡ retention) }
    ensures nothing { IfOk result (λ p. p.nothing ≡ listed p.registry.writer.me.0.of.name []) }
    ensures boxes { IfOk result (λ p. vec_len p.boxes.clients ≡ 64) }
    ensures asks { IfOk result (λ p. WritesControls (arc_value p.registry.shared).controls p.control_writer) }
    ensures policy { IfOk result (λ p. policy_in p.control_writer.policy.me.0 ≡ no_policy) }
    ensures restarts { IfOk result (λ p. p.control_writer.restarts.me.0 ≡ replicate 66 0) }
    ensures fault { IfErr result IsOfMachine }
{
    let Some(history) = History::new(alloc, config, u64::from(servers), MOST_CLIENTS, retention)
    else {
        return Err(StartFault::NoMemory);
    };
    let nothing = history.beginning();
    let cell = history.cell();
    let (table, writer) = open(alloc, history)?;
    let (senders, boxes) = MailboxSenders::new(alloc, servers, MOST_CLIENTS)?;
    let (controls, control_writer) = new_controls(alloc)?;
    let shared = SharedState {
        table,
        senders,
        controls,
        began,
        calling: AtomicU64::new(0),
        closing: AtomicU64::new(0),
        answered: AtomicU64::new(0),
        events: AtomicU64::new(0),
        lost: AtomicU64::new(0),
    };
    match Arc::new(alloc, shared) {
        Ok(shared) => Ok(Parts {
            registry: NodeRegistry {
                shared,
                cell,
                config,
                servers,
                registered: 0,
                writer,
            },
            nothing,
            boxes,
            control_writer,
        }),
        Err(_) => Err(StartFault::NoMemory),
    }
}

fn runs<
    R: Threads + Wait + Clock + Copy + Send + 'static,
    N: Stepper + Send + Drop + 'static,
    G: Gate + Send + Drop + 'static,
>(
    rt: R,
    shared: Arc<SharedState>,
    node: Node,
    lock: Arc<NodeLock<N>>,
    inbox: Receiver<MailboxItem>,
    gate: G,
) -> Result<Thread, StartFault>
    ensures { IfErr result IsOfMachine }
{
    let job = move || serve(&rt, &shared, node, &lock, &inbox, &gate);
    match thread::spawn(&rt, job) {
        Ok(thread) => Ok(thread),
        Err(_) => Err(StartFault::Thread),
    }
}

pub(crate) fn ticks<R: Threads + Wait + Clock + Copy + Send + 'static>(
    rt: R,
    alloc: Global,
    shared: &Arc<SharedState>,
    servers: u16,
) -> Result<Ticker, StartFault>
    ensures { IfErr result IsOfMachine }
{
    let theirs = Arc::try_clone(shared)?;
    let (stop, stopped) = unbounded(alloc)?;
    let job = move || tick(&rt, &theirs, servers, &stopped);
    match thread::spawn(&rt, job) {
        Ok(thread) => Ok(Ticker { stop, thread }),
        Err(_) => Err(StartFault::Thread),
    }
}
