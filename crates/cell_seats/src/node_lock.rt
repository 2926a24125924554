//! A node's lock, from which the node comes back with what is known of it.

ghost use Rattle.std.specs.Prelude.{◌≡◌, ◌∷◌, [], IfOk, IfSome, None};
ghost use Rattle.cell_seats.specs.NodeLocks.{NodeName, IsNamed, Guards, HasNode};

use crate::gate::Gate;
use crate::mailboxes::Input;
use crate::slot::Slot;
use crate::stepper::Stepper;
use atomic_table::{Play, Seat, Shared, Table, TableRule};
use cell_journal::identity::CellIdentity;
use gfs_types::ids::Node;
use gfs_types::no_memory::NoMemory;
use std::alloc::Global;
use std::marker::Model;
use std::sync::Wait;
use std::thread::yield_now;
use std::time::Clock;

/// Of which cell a node is, and which node.
#[derive(Drop)]
pub struct NodeIdentity {
    pub cell: CellIdentity,
    pub node: Node,
}

impl Model for NodeIdentity {
    ghost use Rattle.cell_seats.specs.NodeLocks.{NodeName, node_name};

    ghost Value = { NodeName };

    ghost view = { λ n. node_name n.cell n.node };
}

/// The rule of a lock.
pub struct LockRule;

impl<N: Stepper + Drop> TableRule<Option<Slot<N>>, NodeIdentity, NodeIdentity> for LockRule {
    ghost use Rattle.cell_seats.specs.NodeLocks.{KeepsNode};

    ghost holds = { λ name s. KeepsNode name s };

    ghost first = { λ name. name };
}

/// The node is taken, if it is there.
pub struct TakeNode;

impl<N: Stepper + Drop> Play<Option<Slot<N>>, NodeIdentity> for TakeNode {
    ghost use Rattle.cell_seats.specs.NodeLocks.{TakesNode};

    ghost then = { TakesNode };
}

/// The node is given back.
pub struct GiveNode;

impl<N: Stepper + Drop> Play<Option<Slot<N>>, NodeIdentity> for GiveNode {
    ghost use Rattle.cell_seats.specs.NodeLocks.{GivesNode};

    ghost then = { GivesNode };
}

type LockTable<N> = Table<Option<Slot<N>>, NodeIdentity, NodeIdentity, LockRule, Global>;

type SharedLock<N> = Shared<Option<Slot<N>>, NodeIdentity, NodeIdentity, LockRule>;

type LockPlace<N> = Seat<Option<Slot<N>>, NodeIdentity>;

/// A node under its lock.
pub struct NodeLock<N: Stepper + Drop> {
    table: LockTable<N>,
}

// Stands here, once, so that no crate above proves the drops of all that a node has.
impl<N: Stepper + Drop> Drop for NodeLock<N> {
    fn drop(self) {
        let Self { table: _table } = self;
    }
}

impl<N: Stepper + Drop> Model for NodeLock<N> {
    ghost use Rattle.std.specs.Prelude.{◌≡◌};
    ghost use Rattle.cell_seats.specs.NodeLocks.{NodeName};

    ghost Value = { NodeName };

    ghost view = { λ l. l.table.shared.key };

    ghost invariant = { λ l. (l.table.shared.table_id.words ≡ 1) × (l.table.shared.table_id.slots ≡ 1) };
}

impl<N: Stepper + Drop> NodeLock<N> {
    /// A lock for the node of this name, in which none lies yet.
    pub fn new(alloc: Global, name: &NodeIdentity) -> Result<NodeLock<N>, NoMemory>
        ensures { IfOk result (λ l. l ≡ name.now) }
    {
        let mut slots = Vec::new(alloc);
        slots.push(None)?;
        let table = table_of(alloc, name, slots)?;
        Ok(NodeLock { table })
    }

    /// Puts the node into its lock.
    pub fn put<R: Wait>(&self, rt: &R, slot: Slot<N>)
        requires { IsNamed self.now slot }
    {
        let mut place = take(&self.table.shared, rt);
        let _before = exchange(&self.table.shared, &mut place, Some(slot));
        give_back(&self.table.shared, place);
    }

    /// Takes one step and adds it to the journal, or none and answers false: so it is too once the node was taken out.
    pub fn act<R: Wait + Clock, G: Gate>(&self, rt: &R, input: Input, gate: &G) -> bool {
        let mut place = take(&self.table.shared, rt);
        let acted = act_at(&self.table.shared, &mut place, rt, input, gate);
        give_back(&self.table.shared, place);
        acted
    }

    /// Takes the node out for good, if nobody did before.
    pub fn take_out<R: Wait>(&self, rt: &R) -> Option<Slot<N>>
        ensures { IfSome result (IsNamed self.now) }
    {
        let mut place = take(&self.table.shared, rt);
        let slot = exchange(&self.table.shared, &mut place, None);
        give_back(&self.table.shared, place);
        slot
    }
}

fn table_of<N: Stepper + Drop>(
    alloc: Global,
    name: &NodeIdentity,
    slots: Vec<Option<Slot<N>>>,
) -> Result<LockTable<N>, NoMemory>
    requires { slots.items ≡ None ∷ [] }
    ensures { IfOk result (λ t. (t.shared.key ≡ name.now) × (t.shared.table_id.words ≡ 1) × (t.shared.table_id.slots ≡ 1)) }
{
    match Table::new(alloc, &[0], slots, name) {
        Ok((table, _first)) => Ok(table),
        Err(_) => Err(NoMemory),
    }
}

// Waits until what lies in the lock is there, and takes it.
fn take<R: Wait, N: Stepper + Drop>(lock: &SharedLock<N>, rt: &R) -> LockPlace<N>
    requires { (lock.now.table_id.words ≡ 1) × (lock.now.table_id.slots ≡ 1) }
    ensures table { result.table_id ≡ lock.now.table_id }
    ensures has { HasNode lock.now.key result.me }
{
    for _ in rt.forever() {
        if let Some(place) = try_take(lock) {
            return place;
        }
        yield_now();
    }
    unreachable!()
}

fn try_take<N: Stepper + Drop>(lock: &SharedLock<N>) -> Option<LockPlace<N>>
    requires { (lock.now.table_id.words ≡ 1) × (lock.now.table_id.slots ≡ 1) }
    ensures { IfSome result (λ p. (p.table_id ≡ lock.now.table_id) × HasNode lock.now.key p.me) }
{
    let (found, place) = lock.swap_new_seat::<TakeNode>(0, 1);
    if found == 0 { Some(place) } else { None }
}

fn give_back<N: Stepper + Drop>(lock: &SharedLock<N>, mut place: LockPlace<N>)
    requires lock { (lock.now.table_id.words ≡ 1) × (lock.now.table_id.slots ≡ 1) × (place.table_id ≡ lock.now.table_id) }
    requires has { HasNode lock.now.key place.me }
{
    lock.store::<GiveNode>(&mut place, 0, 0);
}

// Puts something else in the place of what was taken.
fn exchange<N: Stepper + Drop>(
    lock: &SharedLock<N>,
    place: &mut LockPlace<N>,
    slot: Option<Slot<N>>,
) -> Option<Slot<N>>
    requires table { place.old.table_id ≡ lock.now.table_id }
    requires has { HasNode lock.now.key place.old.me }
    requires guards { Guards lock.now.key slot }
    ensures table { place.new.table_id ≡ place.old.table_id }
    ensures has { HasNode lock.now.key place.new.me }
    ensures slot { Guards lock.now.key result }
{
    lock.exchange(place, 0, slot)
}

// A step of the node that was taken.
fn act_at<R: Wait + Clock, N: Stepper + Drop, G: Gate>(
    lock: &SharedLock<N>,
    place: &mut LockPlace<N>,
    rt: &R,
    input: Input,
    gate: &G,
) -> bool
    requires table { place.old.table_id ≡ lock.now.table_id }
    requires has { HasNode lock.now.key place.old.me }
    ensures table { place.new.table_id ≡ place.old.table_id }
    ensures has { HasNode lock.now.key place.new.me }
{
    act_in(place.slot_mut(lock, 0), rt, input, gate)
}

fn act_in<R: Wait + Clock, N: Stepper + Drop, G: Gate>(
    slot: &mut Option<Slot<N>>,
    rt: &R,
    input: Input,
    gate: &G,
) -> bool
    ensures { (name : NodeName) → Guards name slot.old → Guards name slot.new }
{
    match slot {
        Some(slot) => slot.act(rt, input, gate),
        None => false,
    }
}
