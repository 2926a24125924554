//! The locks of a running cell's nodes, which its threads share with it.

ghost use Rattle.std.specs.Prelude.{◌≡◌, ◌≤◌, ◌<◌, ℕ, ◌+◌, ◌^◌, ◌∷◌, suc, true, false, [], map, length, get_or, All, vec_capacity, IfOk, IfSome};
ghost use Rattle.std.specs.Arc.{arc_value};
ghost use Rattle.cell_seats.specs.NodeLocks.{node_name, IsNamed};
ghost use Rattle.gfs_types.specs.declared.ids.Node.TheVariants.{Master};
ghost use Rattle.cell_journal.specs.Identity.{Identity};
ghost use Rattle.cell_journal.specs.Roles.{node_at};
ghost use Rattle.cell_journal.specs.WholeHistories.{is_retired};
ghost use Rattle.cell_seats.specs.ParkedNodes.{name_of, HasSeenAll, HasSeenBase, IsLedBy};
ghost use Rattle.cell_seats.specs.Registries.{IsSameRegistry};
ghost use Rattle.protocol.specs.Tables.{first_numbers};
ghost use Rattle.protocol.specs.Sending.{the_server};
ghost use Rattle.cell_nodes.specs.Nodes.{names_of};
ghost use Rattle.cell_nodes.specs.Nodes.{HaveSeen};
ghost use Rattle.running_nodes.specs.Standing.{MasterStands, ServerStands};

use crate::keep::keep;
use crate::running_master::RunningMaster;
use cell_journal::Beginning;
use cell_journal::identity::CellIdentity;
use cell_journal::raised_entry::RaisedEntry;
use cell_seats::node_lock::{NodeIdentity, NodeLock};
use cell_seats::node_registry::NodeRegistry;
use cell_seats::parked_node::{ParkedNode, park};
use cell_seats::slot::Slot;
use cell_seats::stepper::Stepper;
use gfs_types::ids::{Node, ServerId};
use gfs_types::no_memory::NoMemory;
use running_nodes::running_server::RunningServer;
use running_nodes::seating::hold;
use std::alloc::Global;
use std::marker::Model;
use std::sync::{Arc, Wait};
use std::thread;
use std::time::{Clock, Duration};

/// The locks of the master and of the servers, in the order of their numbers.
pub struct NodeLocks {
    pub master: Arc<NodeLock<RunningMaster>>,
    pub servers: Vec<Arc<NodeLock<RunningServer>>>,
}

// Stands here, once, so that no crate above proves the drops of all that the nodes have.
impl Drop for NodeLocks {
    fn drop(self) {
        let Self {
            master: _master,
            servers: _servers,
        } = self;
    }
}

impl Model for NodeLocks {
    ghost use Rattle.std.specs.Prelude.{◌∷◌, List, map};
    ghost use Rattle.std.specs.Arc.{arc_value};
    ghost use Rattle.cell_seats.specs.NodeLocks.{NodeName};

    ghost Value = { List NodeName };

    ghost view = { λ l. arc_value l.master ∷ map arc_value l.servers.items };
}

impl NodeLocks {
    /// Takes the nodes out, each of which has seen the whole history. Their threads have ended.
    pub fn park<R: Wait + Clock>(self, rt: &R, room: Vec<ParkedNode<RunningServer>>) -> ParkedNodes
        requires none { room.items ≡ [] }
        requires room { length self ≤ suc (vec_capacity room) }
        ensures { map name_of result ≡ self }
    {
        let Self { master, servers } = self;
        let master = park_node(rt, &master, None);
        let count = master.count();
        let mut parked = room;
        for lock in servers.as_slice() {
            parked.push_reserved(park_node(rt, lock, Some(count)));
        }
        ParkedNodes {
            master,
            servers: parked,
            count,
        }
    }
}

impl NodeLocks {
    /// Each parked node gets its place in the journal of the cell that goes on, and lies in its lock.
    pub fn put_all<R: Wait + Clock>(
        &self,
        rt: &R,
        alloc: Global,
        registry: &mut NodeRegistry,
        nodes: ParkedNodes,
    )
        requires first { registry.old.registered ≡ 0 }
        requires locks { self.now ≡ names_of registry.old.cell registry.old.servers }
        requires count { length nodes ≡ registry.old.servers + 1 }
        requires nodes { All (HasSeenBase registry.old.cell) nodes }
        ensures same { IsSameRegistry registry.old registry.new }
        ensures registered { registry.new.registered ≡ registry.old.servers + 1 }
    {
        let (master, servers) = nodes.into_parts();
        put_node(rt, alloc, registry, &self.master, master, Node::Master);
        put_servers(rt, alloc, registry, self.servers.as_slice(), servers);
    }
}

// The servers get their places, in the order of their numbers, and lie in their locks.
fn put_servers<R: Wait + Clock>(
    rt: &R,
    alloc: Global,
    registry: &mut NodeRegistry,
    locks: &[Arc<NodeLock<RunningServer>>],
    servers: Vec<ParkedNode<RunningServer>>,
)
    requires first { registry.old.registered ≡ 1 }
    requires locks { map arc_value locks.now ≡ map (λ s. node_name registry.old.cell (the_server s)) (first_numbers registry.old.servers) }
    requires count { length servers.items ≡ registry.old.servers }
    requires servers { All (HasSeenBase registry.old.cell) servers.items }
    ensures same { IsSameRegistry registry.old registry.new }
    ensures registered { registry.new.registered ≡ registry.old.servers + 1 }
{
    let _servers = registry.servers;
    let mut before: u16 = 0;
    for server in servers {
        let lock = lock_of(locks, before);
        before += 1;
        let node = Node::Server(ServerId(before));
        put_node(rt, alloc, registry, lock, server, node);
    }
}

// The lock at this place.
fn lock_of<N: Stepper + Drop>(locks: &[Arc<NodeLock<N>>], before: u16) -> &Arc<NodeLock<N>>
    requires { before < length locks.now }
    ensures { result.now ≡ get_or locks.now before result.now }
{
    &locks[usize::from(before)]
}

// A node gets its place and lies in its lock.
fn put_node<R: Wait + Clock, N: Stepper + Drop>(
    rt: &R,
    alloc: Global,
    registry: &mut NodeRegistry,
    lock: &Arc<NodeLock<N>>,
    parked: ParkedNode<N>,
    node: Node,
)
    requires next { node_at registry.old.servers registry.old.registered ≡ node }
    requires few { registry.old.registered < 2 ^ 62 }
    requires goes_on { is_retired registry.old.cell node ≡ false }
    requires name { arc_value lock.now ≡ node_name registry.old.cell node }
    requires seen { HasSeenBase registry.old.cell parked }
    ensures same { IsSameRegistry registry.old registry.new }
    ensures registered { registry.new.registered ≡ registry.old.registered + 1 }
{
    parked.meets(registry.cell.base());
    hold(rt, is_node(&parked, node));
    for _ in rt.forever() {
        match registry.next(node) {
            Ok(journal) => {
                lock.put(rt, parked.into_slot(alloc, journal));
                return;
            }
            Err(_) => thread::sleep(rt, Duration::from_millis(1)),
        }
    }
    unreachable!()
}

fn is_node<N: Stepper + Drop>(parked: &ParkedNode<N>, node: Node) -> bool
    ensures { result ≡ true → parked.now.node ≡ node }
{
    parked.name() == node
}

/// The master and the servers, out of their locks. Each has seen so many entries of its cell's history.
pub struct ParkedNodes {
    pub master: ParkedNode<RunningMaster>,
    pub servers: Vec<ParkedNode<RunningServer>>,
    count: usize,
}

// Stands here, once, so that no crate above proves the drops of all that the nodes have.
impl Drop for ParkedNodes {
    fn drop(self) {
        let Self {
            master: _master,
            servers: _servers,
            count: _,
        } = self;
    }
}

impl Model for ParkedNodes {
    ghost use Rattle.std.specs.Prelude.{◌∷◌, List, All};
    ghost use Rattle.cell_seats.specs.ParkedNodes.{ParkedNodeState, HasSeenAll};

    ghost Value = { List ParkedNodeState };

    ghost view = { λ n. n.master ∷ n.servers.items };

    ghost invariant = { λ n. All (λ p. HasSeenAll p.cell n.count p) (n.master ∷ n.servers.items) };
}

impl ParkedNodes {
    /// The master and the servers.
    fn into_parts(self) -> (ParkedNode<RunningMaster>, Vec<ParkedNode<RunningServer>>)
        ensures { self ≡ result.0 ∷ result.1.items }
    {
        let Self {
            master,
            servers,
            count: _,
        } = self;
        (master, servers)
    }

    /// The master, as this history, which it has seen, left it.
    pub fn led_master(&self, history: &Beginning<RaisedEntry>) -> &RunningMaster
        requires { (cell : Identity) × (servers : ℕ) × HaveSeen cell servers history.now self.now }
        ensures { (cell : Identity) (servers : ℕ) → HaveSeen cell servers history.now self.now → IsLedBy cell Master history.now.items (MasterStands result.now.node.master.state) }
    {
        self.master.meets(history);
        self.master.stepper()
    }

    /// The server of the next number behind this one, as this history, which it has seen, left it.
    pub fn led_server(&self, before: u16, history: &Beginning<RaisedEntry>) -> &RunningServer
        requires { (cell : Identity) × (servers : ℕ) × HaveSeen cell servers history.now self.now × (before < servers) }
        ensures { (cell : Identity) (servers : ℕ) → HaveSeen cell servers history.now self.now → before < servers → IsLedBy cell (the_server (before + 1)) history.now.items (ServerStands result.now.server) }
    {
        let server = server_at(self.servers.as_slice(), before);
        server.meets(history);
        server.stepper()
    }

    /// How many entries of the history each has seen.
    pub fn count(&self) -> usize
        ensures { All (λ p. HasSeenAll p.cell result p) self.now }
    {
        self.count
    }
}

// The server at this place.
fn server_at(servers: &[ParkedNode<RunningServer>], before: u16) -> &ParkedNode<RunningServer>
    requires { before < length servers.now }
    ensures { result.now ≡ get_or servers.now before result.now }
{
    &servers[usize::from(before)]
}

// Takes a node out of its lock, once it saw the whole history, which has so many entries, where their number is given.
fn park_node<R: Wait + Clock, N: Stepper + Drop>(
    rt: &R,
    lock: &Arc<NodeLock<N>>,
    count: Option<usize>,
) -> ParkedNode<N>
    ensures name { name_of result ≡ arc_value lock.now }
    ensures history { result.history.name ≡ result.cell.name }
    ensures count { IfSome count (λ k. length result.history.items ≡ k) }
{
    let mut slot = slot_of(rt, lock);
    park(rt, &mut slot, count)
}

// What lies in a lock, from which nobody takes it out beside.
fn slot_of<R: Wait + Clock, N: Stepper + Drop>(rt: &R, lock: &NodeLock<N>) -> Slot<N>
    ensures { IsNamed lock.now result }
{
    for _ in rt.forever() {
        if let Some(slot) = lock.take_out(rt) {
            return slot;
        }
        thread::sleep(rt, Duration::from_millis(1));
    }
    unreachable!()
}

/// A lock for a node of a cell, in which none lies yet.
pub fn new_lock<N: Stepper + Drop>(
    alloc: Global,
    cell: &CellIdentity,
    node: Node,
) -> Result<Arc<NodeLock<N>>, NoMemory>
    ensures { IfOk result (λ l. arc_value l ≡ node_name cell.now node) }
{
    let name = NodeIdentity {
        cell: cell.again(),
        node,
    };
    match Arc::new(alloc, NodeLock::new(alloc, &name)?) {
        Ok(lock) => Ok(lock),
        Err(_) => Err(NoMemory),
    }
}

/// The locks of a cell's nodes, in which none lies yet.
pub fn new_locks(alloc: Global, servers: u16, cell: &CellIdentity) -> Result<NodeLocks, NoMemory>
    ensures { IfOk result (λ l. l ≡ names_of cell.now servers) }
{
    let master = new_lock(alloc, cell, Node::Master)?;
    let servers = server_locks(alloc, servers, cell)?;
    Ok(NodeLocks { master, servers })
}

fn server_locks(
    alloc: Global,
    servers: u16,
    cell: &CellIdentity,
) -> Result<Vec<Arc<NodeLock<RunningServer>>>, NoMemory>
    ensures { IfOk result (λ l. map arc_value l.items ≡ map (λ s. node_name cell.now (the_server s)) (first_numbers servers)) }
{
    let mut locks = Vec::new(alloc);
    for before in 0..servers {
        let node = Node::Server(ServerId(before + 1));
        let lock: Arc<NodeLock<RunningServer>> = new_lock(alloc, cell, node)?;
        keep(&mut locks, lock)?;
    }
    Ok(locks)
}
