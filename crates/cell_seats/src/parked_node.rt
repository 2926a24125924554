//! A node that was taken out of a cell whose threads have ended, with what is known of it.

ghost use Rattle.std.specs.Prelude.{◌≡◌, true, IfSome, length};
ghost use Rattle.cell_journal.specs.Writers.{IsLater, HasLooked};
ghost use Rattle.cell_seats.specs.ParkedNodes.{parked_node, IsBehind, IsLedBy};
ghost use Rattle.cell_seats.specs.Slots.{slot_state};

use crate::node_journal::NodeJournal;
use crate::slot::Slot;
use crate::stepper::Stepper;
use cell_journal::identity::CellIdentity;
use cell_journal::raised_entry::RaisedEntry;
use cell_journal::{Beginning, HistoryLook, meet};
use gfs_types::ids::Node;
use std::alloc::Global;
use std::marker::Model;
use std::sync::Wait;
use std::thread;
use std::thread::yield_now;
use std::time::{Clock, Duration};

/// A node, and its cell's whole history, all steps of the node in which led to the state in which it is.
pub struct ParkedNode<N: Stepper + Drop> {
    cell: CellIdentity,
    node: Node,
    history: Beginning<RaisedEntry>,
    count: usize,
    stepper: N,
}

// Stands here, once, so that no crate above proves the drops of all that a node has.
impl<N: Stepper + Drop> Drop for ParkedNode<N> {
    fn drop(self) {
        let Self {
            cell: _cell,
            node: _,
            history: _history,
            count: _,
            stepper: _stepper,
        } = self;
    }
}

impl<N: Stepper + Drop> Model for ParkedNode<N> {
    ghost use Rattle.std.specs.Prelude.{◌≡◌, length};
    ghost use Rattle.cell_seats.specs.ParkedNodes.{ParkedNodeState, parked_node, IsLedBy};

    ghost Value = { ParkedNodeState };

    ghost view = { λ p. parked_node p.cell p.node p.history };

    ghost invariant = { λ p. (p.count ≡ length p.history.items) × IsLedBy p.cell p.node p.history.items (N.stands p.stepper) };
}

impl<N: Stepper + Drop> ParkedNode<N> {
    /// Takes the node out of a slot that has just seen the whole history. None: it is gone.
    pub fn of(slot: &mut Slot<N>, look: HistoryLook) -> Option<ParkedNode<N>>
        requires { HasLooked slot.old.node slot.old.view look }
        ensures same { slot.new ≡ slot.old }
        ensures some { IfSome result (λ p. p ≡ parked_node look.cell slot.old.node look.beginning) }
    {
        let node = slot.name();
        let stepper = slot.take_node()?;
        let HistoryLook {
            cell,
            beginning,
            count,
        } = look;
        Some(ParkedNode {
            cell,
            node,
            history: beginning,
            count,
            stepper,
        })
    }

    /// The node with a place in a journal that stands behind its history.
    pub fn into_slot(self, alloc: Global, journal: NodeJournal) -> Slot<N>
        requires node { journal.node ≡ self.node }
        requires behind { IsBehind journal.writer.me.0 self }
        ensures { result ≡ slot_state journal.node journal.writer.me.0 }
    {
        let Self {
            cell: _cell,
            node: _,
            history: _history,
            count: _,
            stepper,
        } = self;
        Slot::new(alloc, journal, stepper)
    }

    /// Which node it is.
    pub fn name(&self) -> Node
        ensures { result ≡ self.now.node }
    {
        self.node
    }

    /// The node itself, to whose state all steps led that its cell's history has of it.
    pub fn stepper(&self) -> &N
        ensures { IsLedBy self.now.cell self.now.node self.now.history.items (N.stands result.now) }
    {
        &self.stepper
    }

    /// Whether its cell has the settings of this one, and so many servers and clients.
    pub fn is_of(&self, cell: &CellIdentity) -> bool
        ensures { result ≡ true → (self.now.cell.config ≡ cell.now.config) × (self.now.cell.servers ≡ cell.now.servers) × (self.now.cell.clients ≡ cell.now.clients) }
    {
        self.cell.config() == cell.config()
            && self.cell.servers() == cell.servers()
            && self.cell.clients() == cell.clients()
    }

    /// How many entries the history has.
    pub fn count(&self) -> usize
        ensures { result ≡ length self.now.history.items }
    {
        self.count
    }

    /// A beginning of the same list that has as many entries is the history.
    #[tactic(auto, using(cell_journal::proofs::ListEnds::same_listed))]
    pub fn meets(&self, list: &Beginning<RaisedEntry>)
        requires name { self.now.history.name ≡ list.now.name }
        requires count { length self.now.history.items ≡ length list.now.items }
        ensures { self.now.history ≡ list.now }
    {
        meet(&self.history, list);
    }
}

/// Takes a node out of its slot, once it saw the whole history, which has so many entries, where their number is given. No thread takes steps any
/// more.
pub fn park<R: Wait + Clock, N: Stepper + Drop>(
    rt: &R,
    slot: &mut Slot<N>,
    count: Option<usize>,
) -> ParkedNode<N>
    ensures name { (result.cell ≡ slot.old.view.of) × (result.node ≡ slot.old.node) × (result.history.name ≡ slot.old.view.of.name) }
    ensures count { IfSome count (λ k. length result.history.items ≡ k) }
{
    if let Some(look) = look_until(rt, slot, count)
        && let Some(node) = ParkedNode::of(slot, look)
    {
        return node;
    }
    // The journal would be closed.
    for _ in rt.forever() {
        thread::sleep(rt, Duration::from_secs(1));
    }
    unreachable!()
}

/// Looks at the whole history, once it has so many entries, where their number is given. None: the journal is gone.
#[tactic(auto, using(cell_journal::proofs::WriterSteps::later_self, crate::proofs::Moving::later_trans))]
pub(crate) fn look_until<R: Wait, N: Stepper + Drop>(
    rt: &R,
    slot: &mut Slot<N>,
    count: Option<usize>,
) -> Option<HistoryLook>
    ensures node { slot.new.node ≡ slot.old.node }
    ensures later { IsLater slot.old.view slot.new.view }
    ensures looked { IfSome result (λ l. HasLooked slot.new.node slot.new.view l) }
    ensures count { IfSome result (λ l. IfSome count (λ k. l.count ≡ k)) }
{
    for _ in rt.forever() {
        let look = slot.look(rt)?;
        if is_wanted(count, look.count) {
            return Some(look);
        }
        yield_now();
    }
    unreachable!()
}

// Whether so many entries were asked for, or no number was.
fn is_wanted(wanted: Option<usize>, count: usize) -> bool
    ensures { result ≡ true → IfSome wanted (λ k. count ≡ k) }
{
    match wanted {
        Some(wanted) => wanted == count,
        None => true,
    }
}
