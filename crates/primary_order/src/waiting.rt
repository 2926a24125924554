//! Mutations that some members have not acknowledged.

ghost use Rattle.std.specs.Prelude.{◌≡◌, ◌==◌, ◌<◌, length, IfOk, IfSome};
ghost use Rattle.std.specs.List.{list_all, position};
ghost use Rattle.std.specs.FinMap as map;
ghost use Rattle.primary_order.specs.PrimaryOrder.{settled_by, waiting_by, without_at};

use gfs_types::ids::ClientId;
use gfs_types::lists::ServerList;
use gfs_types::no_memory::NoMemory;
use ordered_map::number_map::NumberMap;
use std::alloc::Global;
use std::marker::Model;

/// The members that have not acknowledged yet.
#[derive(Drop)]
pub struct Members {
    servers: Vec<u16>,
}

impl Model for Members {
    ghost use Rattle.std.specs.Prelude.{List, ℕ};

    ghost Value = { List ℕ };

    ghost view = { λ m. m.servers.items };
}

impl Members {
    pub(crate) fn of(alloc: Global, servers: &ServerList) -> Result<Members, NoMemory>
        ensures { IfOk result (λ m. m ≡ servers.now) }
    {
        Ok(Members {
            servers: Vec::from_slice(alloc, servers.as_slice())?,
        })
    }

    // whether there is no other
    pub(crate) fn are_all(&self, server: u16) -> bool
        ensures { result ≡ list_all (λ m. m == server) self.now }
    {
        self.servers.iter().all(|m| *m == server)
    }

    fn index_of(&self, server: u16) -> Option<usize>
        ensures value { result ≡ position (λ m. m == server) self.now }
        ensures within { IfSome result (λ index. index < length self.now) }
    {
        self.servers.iter().position(|m| *m == server)
    }

    pub(crate) fn remove(&mut self, server: u16)
        ensures { self.new ≡ without_at self.old (position (λ m. m == server) self.old) }
    {
        if let Some(index) = self.index_of(server) {
            self.servers.remove(index);
        }
    }
}

/// A mutation that waits for members.
#[derive(Drop)]
pub struct Waiting {
    pub(crate) client: ClientId,
    pub(crate) seq: u64,
    pub(crate) members: Members,
    pub(crate) place: Option<u64>,
}

impl Waiting {
    pub(crate) fn new(client: ClientId, seq: u64, members: Members, place: Option<u64>) -> Waiting
        ensures { result ≡ record { client = client; seq = seq; members = members; place = place } }
    {
        Waiting {
            client,
            seq,
            members,
            place,
        }
    }
}

// The mutation that was settled by this acknowledgement. Takes no memory.
pub(crate) fn acknowledge(
    waiting: &mut NumberMap<Waiting>,
    serial: u64,
    server: u16,
) -> Option<Waiting>
    ensures settled { result ≡ settled_by server (map.get waiting.old serial) }
    ensures rest { waiting.new ≡ waiting_by waiting.old serial server (map.get waiting.old serial) }
{
    let Some(mutation) = waiting.get(serial) else {
        return None;
    };
    if mutation.members.are_all(server) {
        return waiting.remove(serial);
    }
    let Some(mutation) = waiting.get_mut(serial) else {
        return None;
    };
    mutation.members.remove(server);
    None
}
