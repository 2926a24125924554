//! The nodes, the messages between them, and what an observer sees.

ghost use Rattle.std.specs.Prelude.{◌≡◌, ◌≤◌, ◌-◌, None};
ghost use Rattle.gfs_types.specs.declared.ids.Node.TheVariants as node;
ghost use Rattle.server_cell.specs.Inputs.{input_of};
ghost use Rattle.cell_world.specs.Batches.{message_named};
ghost use Rattle.protocol.specs.Tables.{moment_limit};
ghost use Rattle.protocol.specs.World.{call_moves, delivered, happens, moves, numbered_from_1, restarts, rots_on};
ghost use Rattle.cell_world.specs.Held.{HasEffect};

use crate::clients::{client_calls, client_may_call, client_place, client_steps, is_client_up};
use crate::clock::later;
use crate::master::{CellMaster, StoppableMaster};
use crate::masters::master_steps;
use crate::record::CellRecord;
use crate::servers::{
    is_server_up, server_fuses, server_place, server_restarts, server_rots, server_steps,
};
use client::client::Client;
use gfs_types::answer::Answer;
use gfs_types::call::Call;
use gfs_types::config::Config;
use gfs_types::ids::{ClientId, Handle, MAX_MOMENT, Moment, Node, ServerId};
use gfs_types::torn::Torn;
use messages::event::Event;
use server_cell::server_slot::ServerSlot;
use std::marker::Model;

/// A cell of one master, and of servers and clients by their numbers, from 1, and the greatest moment that was given to a node.
#[derive(Drop)]
pub struct CellState<M: CellMaster> {
    pub(crate) config: Config,
    pub(crate) master: M,
    pub(crate) servers: Vec<ServerSlot>,
    pub(crate) clients: Vec<Client>,
    pub(crate) record: CellRecord,
    pub(crate) greatest: Moment,
}

impl<M: CellMaster> Model for CellState<M> {
    ghost use Rattle.std.specs.Coded.{codes, coded_ℕ, coded_list};
    ghost use Rattle.std.specs.FinMap as map;
    ghost use Rattle.lru.specs.LruCache.{lru_cache_code};
    ghost use Rattle.cell_world.specs.Held.{HeldCell};

    ghost Value = { HeldCell };

    ghost coded = { Prim.hlevel (codes, map.code, lru_cache_code, coded_list, coded_ℕ) };

    ghost view = { λ c. record {
      config = c.config;
      master = M.state c.master;
      files = M.files c.master;
      servers = c.servers.items;
      clients = c.clients.items;
      sent = c.record.network.messages;
      seen = c.record.sights.seen;
      greatest = c.greatest.0;
    } };
}

impl<M: StoppableMaster> CellState<M> {
    /// One event. One that names no such node, message, replica, place or moment, or, but for a restart or a fuse, a node that is down, changes nothing.
    pub fn step(&mut self, event: Event) -> Option<Answer>
        ensures { HasEffect self.old (λ w choice. happens w event choice) result self.new }
    {
        match event {
            Event::Call { client, call, now } => {
                if now.0 > MAX_MOMENT {
                    return None;
                }
                self.takes_call(client, call, now)
            }
            Event::Deliver { number, now } => {
                if now.0 > MAX_MOMENT {
                    return None;
                }
                self.delivers(number, now)
            }
            Event::Tick { node, now } => {
                if now.0 > MAX_MOMENT {
                    return None;
                }
                self.moves(node, None, now)
            }
            Event::Restart { node, now } => {
                self.restart(node, now);
                None
            }
            Event::Rot {
                server,
                handle,
                place,
                byte,
            } => {
                self.rots(server, handle, place, byte);
                None
            }
            Event::Fuse { node, calls, torn } => {
                self.fuses(node, calls, torn);
                None
            }
        }
    }

    fn takes_call(&mut self, client: ClientId, call: Call, now: Moment) -> Option<Answer>
        requires { now.0 ≤ moment_limit }
        ensures { HasEffect self.old (λ w choice. call_moves w (client.0 - 1) now.0 call choice (numbered_from_1 w.clients client.0)) result self.new }
    {
        let Some(place) = client_place(&self.clients, client) else {
            return None;
        };
        if !client_may_call(&self.clients, place) {
            return None;
        }
        self.greatest = later(self.greatest, now);
        client_calls(&mut self.clients, place, &mut self.record, call, now)
    }

    fn delivers(&mut self, number: u64, now: Moment) -> Option<Answer>
        requires { now.0 ≤ moment_limit }
        ensures { HasEffect self.old (λ w choice. delivered w now.0 choice (numbered_from_1 w.sent number)) result self.new }
    {
        let Some(message) = self.record.network.get(number) else {
            return None;
        };
        let receiver = message.receiver;
        self.moves(receiver, Some(number), now)
    }

    /// A node takes a step on the message of a number, or on a tick.
    fn moves(&mut self, node: Node, given: Option<u64>, now: Moment) -> Option<Answer>
        requires { now.0 ≤ moment_limit }
        ensures { HasEffect self.old (λ w choice. moves w node now.0 (input_of (message_named self.old.sent given)) choice) result self.new }
    {
        match node {
            Node::Master => self.master_moves(given, now),
            Node::Server(id) => self.server_moves(id, given, now),
            Node::Client(id) => self.client_moves(id, given, now),
        }
    }

    fn master_moves(&mut self, given: Option<u64>, now: Moment) -> Option<Answer>
        requires { now.0 ≤ moment_limit }
        ensures { HasEffect self.old (λ w choice. moves w node.Master now.0 (input_of (message_named self.old.sent given)) choice) result self.new }
    {
        if !self.master.is_up() {
            return None;
        }
        self.greatest = later(self.greatest, now);
        master_steps(&mut self.master, &mut self.record, given, now)
    }

    fn server_moves(&mut self, id: ServerId, given: Option<u64>, now: Moment) -> Option<Answer>
        requires { now.0 ≤ moment_limit }
        ensures { HasEffect self.old (λ w choice. moves w (node.Server id) now.0 (input_of (message_named self.old.sent given)) choice) result self.new }
    {
        let Some(place) = server_place(&self.servers, id) else {
            return None;
        };
        if !is_server_up(&self.servers, place) {
            return None;
        }
        self.greatest = later(self.greatest, now);
        server_steps(&mut self.servers, place, &mut self.record, given, now)
    }

    fn client_moves(&mut self, id: ClientId, given: Option<u64>, now: Moment) -> Option<Answer>
        requires { now.0 ≤ moment_limit }
        ensures { HasEffect self.old (λ w choice. moves w (node.Client id) now.0 (input_of (message_named self.old.sent given)) choice) result self.new }
    {
        let Some(place) = client_place(&self.clients, id) else {
            return None;
        };
        if !is_client_up(&self.clients, place) {
            return None;
        }
        self.greatest = later(self.greatest, now);
        client_steps(&mut self.clients, place, &mut self.record, given, now)
    }

    /// A node begins again, whether it was up or down. A moment past `MAX_MOMENT` changes nothing.
    pub(crate) fn restart(&mut self, node: Node, now: Moment)
        ensures { HasEffect self.old (λ w choice. happens w (Event.Restart node now) choice) None self.new }
    {
        if now.0 > MAX_MOMENT {
            return;
        }
        self.restarts(node, now);
    }

    fn restarts(&mut self, node: Node, now: Moment)
        requires { now.0 ≤ moment_limit }
        ensures { HasEffect self.old (λ w choice. restarts w node now.0 choice) None self.new }
    {
        match node {
            Node::Master => self.master_restarts(now),
            Node::Server(id) => self.server_restarts(id, now),
            Node::Client(_) => {}
        }
    }

    fn master_restarts(&mut self, now: Moment)
        requires { now.0 ≤ moment_limit }
        ensures { HasEffect self.old (λ w choice. restarts w node.Master now.0 choice) None self.new }
    {
        self.greatest = later(self.greatest, now);
        let _ = self.master.restart(now);
    }

    fn server_restarts(&mut self, id: ServerId, now: Moment)
        requires { now.0 ≤ moment_limit }
        ensures { HasEffect self.old (λ w choice. restarts w (node.Server id) now.0 choice) None self.new }
    {
        let Some(place) = server_place(&self.servers, id) else {
            return;
        };
        self.greatest = later(self.greatest, now);
        let _ = server_restarts(&mut self.servers, place, now);
    }

    /// A node's disk is told to stop.
    fn fuses(&mut self, node: Node, calls: u64, torn: Torn)
        ensures { self.new ≡ self.old }
    {
        match node {
            Node::Master => self.master.fuse(calls, torn),
            Node::Server(id) => {
                if let Some(place) = server_place(&self.servers, id) {
                    server_fuses(&mut self.servers, place, calls, torn);
                }
            }
            Node::Client(_) => {}
        }
    }

    /// A byte rots.
    fn rots(&mut self, id: ServerId, handle: Handle, place: u64, byte: u8)
        ensures { HasEffect self.old (λ w choice. rots_on w (id.0 - 1) handle.0 place byte choice (numbered_from_1 w.servers id.0)) None self.new }
    {
        let Some(index) = server_place(&self.servers, id) else {
            return;
        };
        if place >= u64::from(self.config.chunk) {
            return;
        }
        if !is_server_up(&self.servers, index) {
            return;
        }
        server_rots(&mut self.servers, index, handle, place, byte);
    }
}
