//! How a cell goes on: rounds of ticks, and calls up to their answers.

ghost use Rattle.std.specs.Prelude.{◌≡◌, ◌≤◌, IfOk, IfErr, OnOk, IsTrue, IsFalse, IfSome, IfNone, not, true};
ghost use Rattle.script.specs.ScriptFaults.{IsOfWrite};
ghost use Rattle.cell_simulator.specs.Steps.{First, Goes, Only, after_rounds, is_delivery, is_of_round, later, most_rounds};
ghost use Rattle.cell_simulator.specs.Shown.{call_event, NoneOpen, IsWaiting, state_of};

use crate::cell::SimulatedCell;
use crate::simulator::Simulator;
use gfs_types::ids::{ClientId, Moment, Node, ServerId};
use messages::event::Event;
use script::cell_lines::ClientCall;
use script::script_fault::ScriptFault;
use std::io::Write;

/// The milliseconds between two rounds of ticks.
pub const ROUND_MS: u64 = 100;

/// The rounds of ticks that a line may need.
pub const MAX_ROUNDS: u32 = 1_000_000;

impl<C: SimulatedCell> Simulator<C> {
    /// A tick at a node that isn't cut.
    fn tick<W: Write>(&mut self, node: Node, writer: &mut W) -> Result<(), ScriptFault>
        ensures clock { self.new.clock ≡ self.old.clock }
        ensures goes { OnOk result (Goes C.meaning (state_of self.old) (state_of self.new) (Only is_of_round) (W.contents writer.old) (W.contents writer.new)) }
        ensures fault { IfErr result IsOfWrite }
    {
        if self.network.is_cut(node) {
            return Ok(());
        }
        let now = self.clock;
        self.take(node, Event::Tick { node, now }, writer)
    }

    /// A tick at each server, in rising number.
    fn tick_servers<W: Write>(&mut self, writer: &mut W) -> Result<(), ScriptFault>
        ensures clock { self.new.clock ≡ self.old.clock }
        ensures goes { OnOk result (Goes C.meaning (state_of self.old) (state_of self.new) (Only is_of_round) (W.contents writer.old) (W.contents writer.new)) }
        ensures fault { IfErr result IsOfWrite }
    {
        for number in 0..self.cell.server_count() {
            self.tick(Node::Server(ServerId(number + 1)), writer)?;
        }
        Ok(())
    }

    /// A tick at each client, in rising number.
    fn tick_clients<W: Write>(&mut self, writer: &mut W) -> Result<(), ScriptFault>
        ensures clock { self.new.clock ≡ self.old.clock }
        ensures goes { OnOk result (Goes C.meaning (state_of self.old) (state_of self.new) (Only is_of_round) (W.contents writer.old) (W.contents writer.new)) }
        ensures fault { IfErr result IsOfWrite }
    {
        for number in 0..self.cell.client_count() {
            self.tick(Node::Client(ClientId(number + 1)), writer)?;
        }
        Ok(())
    }

    /// A round of ticks: the servers, the master and the clients, each with the deliveries that follow.
    fn tick_round<W: Write>(&mut self, writer: &mut W) -> Result<(), ScriptFault>
        ensures clock { self.new.clock ≡ self.old.clock }
        ensures goes { OnOk result (Goes C.meaning (state_of self.old) (state_of self.new) (Only is_of_round) (W.contents writer.old) (W.contents writer.new)) }
        ensures fault { IfErr result IsOfWrite }
    {
        self.tick_servers(writer)?;
        self.deliver(writer)?;
        self.tick(Node::Master, writer)?;
        self.deliver(writer)?;
        self.tick_clients(writer)?;
        self.deliver(writer)
    }

    /// So many milliseconds go by, and there is one round of ticks.
    pub fn wait<W: Write>(&mut self, count: u64, writer: &mut W) -> Result<(), ScriptFault>
        ensures clock { self.new.clock.0 ≡ later self.old.clock.0 count }
        ensures goes { OnOk result (Goes C.meaning (state_of self.old) (state_of self.new) (Only is_of_round) (W.contents writer.old) (W.contents writer.new)) }
        ensures fault { IfErr result IsOfWrite }
    {
        self.clock = Moment(self.clock.0.saturating_add(count));
        self.tick_round(writer)
    }

    /// A client calls, and what that leads to at once is delivered.
    pub fn start<W: Write>(&mut self, asked: ClientCall, writer: &mut W) -> Result<(), ScriptFault>
        ensures clock { self.new.clock ≡ self.old.clock }
        ensures goes { OnOk result (Goes C.meaning (state_of self.old) (state_of self.new) (First (call_event asked self.old.clock) is_delivery) (W.contents writer.old) (W.contents writer.new)) }
        ensures fault { IfErr result IsOfWrite }
    {
        let client = asked.client;
        let event = Event::Call {
            client,
            call: asked.call,
            now: self.clock,
        };
        self.take(Node::Client(client), event, writer)?;
        self.deliver(writer)
    }

    /// A client calls, and the cell goes on while that call is open. It tells whether the call is over: else the clock went on by
    /// all the rounds of ticks that a line may need.
    pub fn call<W: Write>(&mut self, asked: ClientCall, writer: &mut W) -> Result<bool, ScriptFault>
        ensures is_over { IfOk result (λ is_over. is_over ≡ not (C.meaning.is_open self.new.cell asked.client)) }
        ensures rounds { IfOk result (λ is_over. IsFalse is_over → self.new.clock.0 ≡ after_rounds self.old.clock.0 most_rounds) }
        ensures goes { OnOk result (Goes C.meaning (state_of self.old) (state_of self.new) (First (call_event asked self.old.clock) is_of_round) (W.contents writer.old) (W.contents writer.new)) }
        ensures fault { IfErr result IsOfWrite }
    {
        let _began = self.clock.0;
        let client = asked.client;
        self.start(asked, writer)?;
        for _ in 0..MAX_ROUNDS {
            if !self.cell.has_open_call(client) {
                return Ok(true);
            }
            self.wait(ROUND_MS, writer)?;
        }
        Ok(!self.cell.has_open_call(client))
    }

    /// The first client whose call is open.
    fn first_open(&self) -> Option<ClientId>
        ensures none { IfNone result (NoneOpen C.meaning self.now.cell) }
        ensures open { IfSome result (λ client. C.meaning.is_open self.now.cell client ≡ true) }
    {
        for number in 0..self.cell.client_count() {
            let client = ClientId(number + 1);
            if self.cell.has_open_call(client) {
                return Some(client);
            }
        }
        None
    }

    /// The cell goes on while a call is open. It tells whether all calls are over: else the clock went on by all the rounds of
    /// ticks that a line may need.
    pub fn finish<W: Write>(&mut self, writer: &mut W) -> Result<bool, ScriptFault>
        ensures is_over { IfOk result (λ is_over. IsTrue is_over → NoneOpen C.meaning self.new.cell) }
        ensures waits { IfOk result (λ is_over. IsFalse is_over → IsWaiting C.meaning self.new.cell) }
        ensures rounds { IfOk result (λ is_over. IsFalse is_over → self.new.clock.0 ≡ after_rounds self.old.clock.0 most_rounds) }
        ensures goes { OnOk result (Goes C.meaning (state_of self.old) (state_of self.new) (Only is_of_round) (W.contents writer.old) (W.contents writer.new)) }
        ensures fault { IfErr result IsOfWrite }
    {
        let _began = self.clock.0;
        for _ in 0..MAX_ROUNDS {
            if self.first_open().is_none() {
                return Ok(true);
            }
            self.wait(ROUND_MS, writer)?;
        }
        Ok(self.first_open().is_none())
    }
}
