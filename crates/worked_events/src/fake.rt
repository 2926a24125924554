//! A cell of a few messages, which keeps its first events.
//!
//! - `mkdir`: the client sends Ask to the master, which sends Create to each server, which answers Recorded; at the last of these the
//!   client is sent Wait, and the call is done. It is never given up.
//! - Each other call: the master answers Ask by Wait at once. A client that ticks at 500 milliseconds or later gives such a call up, with
//!   the refusal Unknown.
//! - A node that starts anew sends Revoked to the master; where all do, the messages are dropped and nothing is sent. Else it keeps all messages.

ghost use Rattle.std.specs.Prelude.{⊤, ◌==◌, ◌-◌, nat_lt, if◌then◌else◌, [], ◌∷◌, length, Some, None, slice_get, codes, bytes_eq, true, false};
ghost use Rattle.std.specs.List.{list_any};
ghost use Rattle.relaxed_file.specs.declared.region.Region.{Region as RegionShown};

use cell_simulator::cell::SimulatedCell;
use gfs_types::answer::Answer;
use gfs_types::call::Call;
use gfs_types::ids::{ClientId, FileId, Handle, Moment, Node, OrderNo, ServerId, Version};
use gfs_types::no_memory::NoMemory;
use gfs_types::path::Path;
use gfs_types::refusal::Refusal;
use messages::event::Event;
use messages::message::{Body, Message, Wanted};
use relaxed_file::region::Region;
use script::kinds::Kind;
use script::stored::StoredReplica;
use std::alloc::Global;

/// The chunk that all messages are about.
const HANDLE: Handle = Handle(1);

/// The first events, of which so many are kept.
const MAX_EVENTS: usize = 40;

const VERSION: Version = Version(1);

#[derive(Drop)]
pub struct FakeCell {
    pub events: Vec<Event>,
    messages: Vec<Message>,
    /// The clients whose call is open, and those of them that never give up.
    open: Vec<u64>,
    patient: Vec<u64>,
    /// The client whose call the servers were sent last, and how many have answered.
    asker: Node,
    recorded: u16,
    servers: u16,
    clients: u64,
}

impl FakeCell {
    pub fn new(alloc: Global, servers: u16, clients: u64) -> FakeCell {
        FakeCell {
            events: Vec::new(alloc),
            messages: Vec::new(alloc),
            open: Vec::new(alloc),
            patient: Vec::new(alloc),
            asker: Node::Master,
            recorded: 0,
            servers,
            clients,
        }
    }

    fn send(&mut self, sender: Node, receiver: Node, body: Body) {
        let number = self.messages.len() as u64;
        let message = Message {
            number: number.saturating_add(1),
            sender,
            receiver,
            body,
        };
        let _ = self.messages.push(message);
    }

    fn calls(&mut self, client: ClientId, call: &Call) {
        if self.open.contains(&client.0) {
            return;
        }
        let is_long = matches!(call, Call::Mkdir(_));
        let _ = self.open.push(client.0);
        if is_long {
            let _ = self.patient.push(client.0);
        }
        let body = Body::Ask {
            number: 1,
            file: FileId(if is_long { 2 } else { 1 }),
            wanted: Wanted::Last,
            deadline: Moment(0),
            lost_lease: false,
        };
        self.send(Node::Client(client), Node::Master, body);
    }

    /// A client's call is over, and whether one was open.
    fn ends(&mut self, node: Node) -> bool {
        let Node::Client(client) = node else {
            return false;
        };
        if !self.open.contains(&client.0) {
            return false;
        }
        self.open.retain(|other| *other != client.0);
        self.patient.retain(|other| *other != client.0);
        true
    }

    fn asked(&mut self, client: Node, is_long: bool) {
        if !is_long {
            self.send(Node::Master, client, Body::Wait { number: 1 });
            return;
        }
        self.asker = client;
        for server in 0..self.servers {
            let body = Body::Create {
                order: OrderNo { epoch: 1, count: 1 },
                handle: HANDLE,
                version: VERSION,
            };
            let receiver = Node::Server(ServerId(server.saturating_add(1)));
            self.send(Node::Master, receiver, body);
        }
    }

    fn recorded(&mut self) {
        self.recorded = self.recorded.saturating_add(1);
        if self.recorded == self.servers {
            self.recorded = 0;
            let asker = self.asker;
            self.send(Node::Master, asker, Body::Wait { number: 1 });
        }
    }

    fn receives(&mut self, number: u64) -> Option<Answer> {
        let message = self.message(number)?;
        let sender = message.sender;
        let receiver = message.receiver;
        let is_long = matches!(
            message.body,
            Body::Ask {
                file: FileId(2),
                ..
            }
        );
        match Kind::of(&message.body) {
            Kind::Ask => self.asked(sender, is_long),
            Kind::Create => self.send(
                receiver,
                Node::Master,
                Body::Recorded {
                    handle: HANDLE,
                    version: VERSION,
                },
            ),
            Kind::Recorded => self.recorded(),
            Kind::Wait if self.ends(receiver) => return Some(Answer::Done),
            _ => {}
        }
        None
    }

    fn ticks(&mut self, node: Node, now: Moment) -> Option<Answer> {
        let Node::Client(client) = node else {
            return None;
        };
        if now.0 >= 500 && !self.patient.contains(&client.0) && self.ends(node) {
            Some(Answer::Refused(Refusal::Unknown))
        } else {
            None
        }
    }

    fn happens(&mut self, event: &Event) -> Option<Answer> {
        match event {
            Event::Call { client, call, .. } => {
                self.calls(*client, call);
                None
            }
            Event::Deliver { number, .. } => self.receives(*number),
            Event::Tick { node, now } => self.ticks(*node, *now),
            Event::Restart { node, .. } => {
                let body = Body::Revoked {
                    handle: HANDLE,
                    version: VERSION,
                };
                self.send(*node, Node::Master, body);
                None
            }
            _ => None,
        }
    }
}

impl SimulatedCell for FakeCell {
    ghost meaning = { record {
      steps = λ old event answer new. ⊤;
      rebases = λ old moment new. ⊤;
      drops = λ old new. ⊤;
      count = λ cell. length cell.messages.items;
      message = λ cell number. if nat_lt 0 number then slice_get cell.messages.items (number - 1) else None;
      servers = λ cell. cell.servers;
      clients = λ cell. cell.clients;
      is_open = λ cell client. list_any (λ other. other == client.0) cell.open.items;
      file = λ cell path. if bytes_eq path (codes "/f") then Some (record { 0 = 1 }) else if bytes_eq path (codes "/e") then Some (record { 0 = 2 }) else None;
      regions = λ cell file index. if nat_lt 0 index then None else if file.0 == 1 then Some (record { from = 0; to = 13; determined = false } ∷ record { from = 13; to = 26; determined = true } ∷ []) else Some [];
      replicas = λ cell file index. if nat_lt 0 index then None else if file.0 == 1 then Some (record { 0 = 1 }, record { server = record { 0 = 1 }; version = record { 0 = 2 }; length = 26 } ∷ record { server = record { 0 = 3 }; version = record { 0 = 1 }; length = 13 } ∷ []) else Some (record { 0 = 2 }, []);
    } };

    fn step(&mut self, event: Event) -> Option<Answer> {
        let answer = self.happens(&event);
        if self.events.len() < MAX_EVENTS {
            let _ = self.events.push(event);
        } else {
            drop(event);
        }
        answer
    }

    fn rebase(&mut self, _now: Moment) {
        self.messages.clear();
    }

    fn drop_messages(&mut self) -> u64 {
        self.messages.len() as u64
    }

    fn message(&self, number: u64) -> Option<&Message> {
        if number == 0 {
            return None;
        }
        self.messages.get((number - 1) as usize)
    }

    fn server_count(&self) -> u16 {
        self.servers
    }

    fn client_count(&self) -> u64 {
        self.clients
    }

    fn has_open_call(&self, client: ClientId) -> bool {
        self.open.contains(&client.0)
    }

    fn file(&self, path: &Path) -> Option<FileId> {
        if path.as_str() == "/f" {
            Some(FileId(1))
        } else if path.as_str() == "/e" {
            Some(FileId(2))
        } else {
            None
        }
    }

    fn regions(
        &self,
        alloc: Global,
        file: FileId,
        index: u64,
    ) -> Result<Option<Vec<Region>>, NoMemory> {
        if index > 0 {
            return Ok(None);
        }
        if file.0 != 1 {
            return Ok(Some(Vec::new(alloc)));
        }
        let first = Region {
            from: 0,
            to: 13,
            determined: false,
        };
        let last = Region {
            from: 13,
            to: 26,
            determined: true,
        };
        Ok(Some(Vec::from_slice(alloc, &[first, last])?))
    }

    fn replicas(
        &self,
        alloc: Global,
        file: FileId,
        index: u64,
    ) -> Result<Option<(Handle, Vec<StoredReplica>)>, NoMemory> {
        if index > 0 {
            return Ok(None);
        }
        if file.0 != 1 {
            return Ok(Some((Handle(2), Vec::new(alloc))));
        }
        let first = StoredReplica {
            server: ServerId(1),
            version: Version(2),
            length: 26,
        };
        let last = StoredReplica {
            server: ServerId(3),
            version: Version(1),
            length: 13,
        };
        Ok(Some((Handle(1), Vec::from_slice(alloc, &[first, last])?)))
    }
}
