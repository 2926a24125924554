//! A cell under the simulator's clock, and how its messages come and its nodes tick.

ghost use Rattle.std.specs.Prelude.{◌≡◌, ℕ, List, [], Option, Some, IfErr, OnOk};
ghost use Rattle.script.specs.ScriptFaults.{IsOfWrite};
ghost use Rattle.cell_simulator.specs.Steps.{First, Goes, Just, Only, is_delivery, moment_of, node_of};
ghost use Rattle.cell_simulator.specs.Shown.{has_node, state_of};

use crate::cell::SimulatedCell;
use crate::network::{Fate, NetworkOrders};
use crate::printing::print_answer;
use gfs_types::ids::{Moment, Node};
use messages::event::Event;
use script::script_fault::ScriptFault;
use std::alloc::Global;
use std::io::Write;

/// A cell, its clock, which begins at 0, and its network.
#[derive(Drop)]
pub struct Simulator<C> {
    pub cell: C,
    pub clock: Moment,
    pub network: NetworkOrders,
    /// The number of the message that is seen to next.
    pub next: u64,
}

impl<C: SimulatedCell> Simulator<C> {
    /// A simulator of a cell in which nothing was sent.
    pub fn new(alloc: Global, cell: C) -> Simulator<C>
        ensures { state_of result ≡ record { cell = cell; clock = 0 } }
    {
        Simulator {
            cell,
            clock: Moment(0),
            network: NetworkOrders::new(alloc),
            next: 1,
        }
    }

    /// Whether there is such a node.
    pub fn has_node(&self, node: Node) -> bool
        ensures { result ≡ has_node C.meaning self.now.cell node }
    {
        match node {
            Node::Master => true,
            Node::Server(server) => (1..=self.cell.server_count()).contains(&server.0),
            Node::Client(client) => (1..=self.cell.client_count()).contains(&client.0),
        }
    }

    /// Takes one event at a node, and prints its answer.
    pub fn take<W: Write>(
        &mut self,
        node: Node,
        event: Event,
        writer: &mut W,
    ) -> Result<(), ScriptFault>
        requires node { node_of C.meaning self.old.cell event ≡ Some node }
        requires moment { moment_of self.old.clock.0 event ≡ self.old.clock.0 }
        ensures clock { self.new.clock ≡ self.old.clock }
        ensures goes { OnOk result (Goes C.meaning (state_of self.old) (state_of self.new) (Just event) (W.contents writer.old) (W.contents writer.new)) }
        ensures fault { IfErr result IsOfWrite }
    {
        let answer = self.cell.step(event);
        print_answer(node, answer, writer)
    }

    /// Delivers a message once, if there is one of this number.
    fn deliver_once<W: Write>(&mut self, number: u64, writer: &mut W) -> Result<(), ScriptFault>
        ensures clock { self.new.clock ≡ self.old.clock }
        ensures goes { OnOk result (Goes C.meaning (state_of self.old) (state_of self.new) (Only is_delivery) (W.contents writer.old) (W.contents writer.new)) }
        ensures fault { IfErr result IsOfWrite }
    {
        let Some(message) = self.cell.message(number) else {
            return Ok(());
        };
        let node = message.receiver;
        let now = self.clock;
        self.take(node, Event::Deliver { number, now }, writer)
    }

    /// Delivers a message once where it is to be delivered twice.
    fn deliver_double<W: Write>(&mut self, number: u64, writer: &mut W) -> Result<(), ScriptFault>
        ensures clock { self.new.clock ≡ self.old.clock }
        ensures goes { OnOk result (Goes C.meaning (state_of self.old) (state_of self.new) (Only is_delivery) (W.contents writer.old) (W.contents writer.new)) }
        ensures fault { IfErr result IsOfWrite }
    {
        let Some(message) = self.cell.message(number) else {
            return Ok(());
        };
        if self.network.is_doubled(message) {
            self.deliver_once(number, writer)
        } else {
            Ok(())
        }
    }

    /// Delivers a message, and at once again where that was asked for.
    pub fn deliver_message<W: Write>(
        &mut self,
        number: u64,
        writer: &mut W,
    ) -> Result<(), ScriptFault>
        ensures clock { self.new.clock ≡ self.old.clock }
        ensures goes { OnOk result (Goes C.meaning (state_of self.old) (state_of self.new) (Only is_delivery) (W.contents writer.old) (W.contents writer.new)) }
        ensures fault { IfErr result IsOfWrite }
    {
        self.deliver_double(number, writer)?;
        self.deliver_once(number, writer)
    }

    /// Sees to the message that was sent next, and tells whether there was one.
    fn see_to_next<W: Write>(&mut self, writer: &mut W) -> Result<bool, ScriptFault>
        ensures clock { self.new.clock ≡ self.old.clock }
        ensures goes { OnOk result (Goes C.meaning (state_of self.old) (state_of self.new) (Only is_delivery) (W.contents writer.old) (W.contents writer.new)) }
        ensures fault { IfErr result IsOfWrite }
    {
        let number = self.next;
        let Some(message) = self.cell.message(number) else {
            return Ok(false);
        };
        let fate = self.network.fate(message);
        self.next = number.saturating_add(1);
        match fate {
            Fate::Delivered => self.deliver_message(number, writer)?,
            Fate::PutAside => self.network.put_aside(number)?,
            Fate::Lost => {}
        }
        Ok(true)
    }

    /// Delivers each message that was sent, the lowest number first, but for those that are put aside or lost.
    fn see_to_all<W: Write>(&mut self, writer: &mut W) -> Result<(), ScriptFault>
        ensures clock { self.new.clock ≡ self.old.clock }
        ensures goes { OnOk result (Goes C.meaning (state_of self.old) (state_of self.new) (Only is_delivery) (W.contents writer.old) (W.contents writer.new)) }
        ensures fault { IfErr result IsOfWrite }
    {
        for _ in 0..u64::MAX {
            if !self.see_to_next(writer)? {
                break;
            }
        }
        Ok(())
    }

    /// Where no message is put aside, none comes again once all were seen to, and all are dropped.
    fn drop_messages(&mut self)
        ensures clock { self.new.clock ≡ self.old.clock }
        ensures goes { (known : Option (List ℕ)) → Goes C.meaning (state_of self.old) (state_of self.new) (Only is_delivery) known known }
    {
        if self.network.aside.is_empty() {
            self.next = self.cell.drop_messages().saturating_add(1);
        }
    }

    /// Sees to all that is to come, and then, if none is put aside, drops the messages. So between two lines of a script no message is on its way.
    pub fn deliver<W: Write>(&mut self, writer: &mut W) -> Result<(), ScriptFault>
        ensures clock { self.new.clock ≡ self.old.clock }
        ensures goes { OnOk result (Goes C.meaning (state_of self.old) (state_of self.new) (Only is_delivery) (W.contents writer.old) (W.contents writer.new)) }
        ensures fault { IfErr result IsOfWrite }
    {
        self.see_to_all(writer)?;
        self.drop_messages();
        Ok(())
    }

    /// Delivers what was put aside, the lowest number first, and then what that led to.
    pub fn free<W: Write>(&mut self, alloc: Global, writer: &mut W) -> Result<(), ScriptFault>
        ensures clock { self.new.clock ≡ self.old.clock }
        ensures goes { OnOk result (Goes C.meaning (state_of self.old) (state_of self.new) (Only is_delivery) (W.contents writer.old) (W.contents writer.new)) }
        ensures fault { IfErr result IsOfWrite }
    {
        let freed = self.network.free(alloc);
        for number in &freed {
            self.deliver_message(*number, writer)?;
        }
        self.deliver(writer)
    }

    /// The master and each server begin again, and all messages are dropped, those too that were put aside.
    pub fn rebase(&mut self)
        ensures clock { self.new.clock ≡ self.old.clock }
        ensures rebases { C.meaning.rebases self.old.cell self.old.clock.0 self.new.cell }
        ensures aside { self.new.network.aside.items ≡ [] }
        ensures next { self.new.next ≡ 1 }
    {
        self.cell.rebase(self.clock);
        self.network.aside.clear();
        self.next = 1;
    }

    /// A node starts anew, if it is no client.
    pub fn restart<W: Write>(&mut self, node: Node, writer: &mut W) -> Result<(), ScriptFault>
        ensures clock { self.new.clock ≡ self.old.clock }
        ensures goes { OnOk result (Goes C.meaning (state_of self.old) (state_of self.new) (First (Event.Restart node self.old.clock) is_delivery) (W.contents writer.old) (W.contents writer.new)) }
        ensures fault { IfErr result IsOfWrite }
    {
        let now = self.clock;
        self.take(node, Event::Restart { node, now }, writer)?;
        self.deliver(writer)
    }
}
