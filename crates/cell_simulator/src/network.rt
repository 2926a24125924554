//! What the network does with messages: it delivers them, keeps them back, or loses them.

ghost use Rattle.std.specs.Prelude.{◌≡◌, ◌≢◌, ◌∷◌, ◌++◌, [], ◌||◌, true, false, OnOk, OnErr, IsTrue, IsFalse};
ghost use Rattle.std.specs.List.{list_any};
ghost use Rattle.cell_simulator.specs.Network.{TakesOrder, matter_of};

use gfs_types::ids::Node;
use gfs_types::no_memory::NoMemory;
use messages::message::Message;
use script::cell_lines::Matter;
use script::kinds::Kind;
use std::alloc::Global;
use std::mem;

/// What becomes of a message that was sent.
#[derive(Clone, Copy, Debug, PartialEq, Eq)]
pub enum Fate {
    Delivered,
    PutAside,
    Lost,
}

/// The network's orders, and the messages that were put aside, by rising number.
#[derive(Drop)]
pub struct NetworkOrders {
    pub aside: Vec<u64>,
    pub holds: Vec<Matter>,
    pub twices: Vec<Matter>,
    pub cuts: Vec<Node>,
}

/// The kind of a message and its receiver.
fn matter_of(message: &Message) -> Matter
    ensures { result ≡ matter_of message.now }
{
    Matter {
        kind: Kind::of(&message.body),
        receiver: message.receiver,
    }
}

fn is_same(one: &Matter, other: &Matter) -> bool
    ensures { IsTrue result → one.now ≡ other.now }
{
    *one == *other
}

/// Takes the first order on such messages from the list, and tells whether there was one.
fn take_order(orders: &mut Vec<Matter>, message: &Message) -> bool
    ensures taken { IsTrue result → TakesOrder orders.old.items orders.new.items message.now }
    ensures none { IsFalse result → orders.new.items ≡ orders.old.items }
{
    let matter = matter_of(message);
    for place in 0..orders.len() {
        if is_same(&orders[place], &matter) {
            orders.remove(place);
            return true;
        }
    }
    false
}

impl NetworkOrders {
    /// A network that delivers each message once.
    pub fn new(alloc: Global) -> NetworkOrders
        ensures aside { result.aside.items ≡ [] }
        ensures holds { result.holds.items ≡ [] }
        ensures twices { result.twices.items ≡ [] }
        ensures cuts { result.cuts.items ≡ [] }
    {
        NetworkOrders {
            aside: Vec::new(alloc),
            holds: Vec::new(alloc),
            twices: Vec::new(alloc),
            cuts: Vec::new(alloc),
        }
    }

    /// What becomes of a message that was just sent. One that a hold was waiting for is put aside, and that hold is over.
    pub fn fate(&mut self, message: &Message) -> Fate
        ensures aside { result ≡ Fate.PutAside → TakesOrder self.old.holds.items self.new.holds.items message.now }
        ensures holds { result ≢ Fate.PutAside → self.new.holds.items ≡ self.old.holds.items }
        ensures lost { result ≡ Fate.Lost → list_any (λ other. ⟦<Node as PartialEq>⟧.eq other message.now.sender) self.old.cuts.items || list_any (λ other. ⟦<Node as PartialEq>⟧.eq other message.now.receiver) self.old.cuts.items ≡ true }
        ensures delivered { result ≡ Fate.Delivered → list_any (λ other. ⟦<Node as PartialEq>⟧.eq other message.now.sender) self.old.cuts.items || list_any (λ other. ⟦<Node as PartialEq>⟧.eq other message.now.receiver) self.old.cuts.items ≡ false }
    {
        if take_order(&mut self.holds, message) {
            Fate::PutAside
        } else if self.is_cut(message.sender) || self.is_cut(message.receiver) {
            Fate::Lost
        } else {
            Fate::Delivered
        }
    }

    /// Whether a message is to be delivered twice; that order is then over.
    pub fn is_doubled(&mut self, message: &Message) -> bool
        ensures taken { IsTrue result → TakesOrder self.old.twices.items self.new.twices.items message.now }
        ensures none { IsFalse result → self.new.twices.items ≡ self.old.twices.items }
    {
        take_order(&mut self.twices, message)
    }

    pub fn is_cut(&self, node: Node) -> bool
        ensures { result ≡ list_any (λ other. ⟦<Node as PartialEq>⟧.eq other node) self.now.cuts.items }
    {
        self.cuts.contains(&node)
    }

    /// The next message of this matter is put aside.
    pub fn hold(&mut self, matter: Matter) -> Result<(), NoMemory>
        ensures { OnOk result (self.new.holds.items ≡ self.old.holds.items ++ matter ∷ []) }
    {
        Ok(self.holds.push(matter)?)
    }

    /// The next message of this matter is delivered twice.
    pub fn double(&mut self, matter: Matter) -> Result<(), NoMemory>
        ensures { OnOk result (self.new.twices.items ≡ self.old.twices.items ++ matter ∷ []) }
    {
        Ok(self.twices.push(matter)?)
    }

    /// Messages from and to the node that aren't put aside are lost from now on.
    pub fn cut(&mut self, node: Node) -> Result<(), NoMemory> {
        if self.is_cut(node) {
            return Ok(());
        }
        Ok(self.cuts.push(node)?)
    }

    pub fn join(&mut self, node: Node) {
        self.cuts.retain(|other| *other != node);
    }

    /// Keeps back the message of this number.
    pub fn put_aside(&mut self, number: u64) -> Result<(), NoMemory>
        ensures { OnOk result (self.new.aside.items ≡ self.old.aside.items ++ number ∷ []) }
    {
        Ok(self.aside.push(number)?)
    }

    /// The messages that were put aside, which no longer are.
    pub fn free(&mut self, alloc: Global) -> Vec<u64>
        ensures freed { result.items ≡ self.old.aside.items }
        ensures rest { self.new.aside.items ≡ [] }
    {
        mem::replace(&mut self.aside, Vec::new(alloc))
    }
}
