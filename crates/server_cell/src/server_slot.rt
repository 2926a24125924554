//! The place of a server in a cell, driven by a script or on threads: it lets the server's disk stop, and opens the server over it again.

ghost use Rattle.std.specs.Prelude.{◌≡◌, ◌≤◌, [], true, IfOk, IfSome};
ghost use Rattle.std.specs.Option.{option_copied};
ghost use Rattle.disk.specs.Writes.{LeftBy};
ghost use Rattle.chunk_store.specs.Opening.{HoldsReplicas};
ghost use Rattle.disk_store.specs.Standing.{LeavesHolding};
ghost use Rattle.protocol.specs.Conforms.{ServerSteps, ServerRestarts, ServerRots};
ghost use Rattle.protocol.specs.Server.{started_server, stopped_server};
ghost use Rattle.protocol.specs.Tables.{moment_limit};
ghost use Rattle.replica_store.specs.Replicas.{ServerDisk, row_at};
ghost use Rattle.server_cell.specs.Inputs.{input_of};
ghost use Rattle.server_cell.specs.Settings.{IsForServers};

use crate::disk_server::Server;
use disk::{FuseDisk, MemDisk, StopPlan};
use gfs_types::config::Config;
use gfs_types::ghost_list::GhostList;
use gfs_types::ids::{Handle, Moment, ServerId};
use gfs_types::torn::Torn;
use messages::event::StepOut;
use messages::message::Message;
use protocol::step_outcome::{Outcome, down_output, no_output};
use replica_store::fault::ReplicaStoreFault;
use replica_store::row::Row;
use std::alloc::Global;
use std::marker::Model;

/// A server over a disk in memory, which a script stops and restarts. Where the server can't be opened again, its disk stays here, and the
/// server is down.
pub struct ServerSlot {
    alloc: Global,
    config: Config,
    id: ServerId,
    server: Option<Server<FuseDisk<Global>>>,
    // where the server could not be opened again: its disk
    disk: Option<FuseDisk<Global>>,
    // and the server as it was, for proofs alone
    before: GhostList<Server<FuseDisk<Global>>>,
    stops: StopPlan,
}

// Stands here, once, so that no crate above proves the drops of all that a slot owns.
impl Drop for ServerSlot {
    fn drop(self) {
        let Self {
            alloc: _alloc,
            config: _,
            id: _,
            server: _server,
            disk: _disk,
            before: _before,
            stops: _stops,
        } = self;
    }
}

impl Model for ServerSlot {
    ghost use Rattle.std.specs.FinMap as map;
    ghost use Rattle.std.specs.Coded.{codes, coded_ℕ};
    ghost use Rattle.protocol.specs.Server.{ServerState};
    ghost use Rattle.server_cell.specs.Settings.{IsForServers, IsServerOf};
    ghost use Rattle.server_cell.specs.Slots.{IsDiskLeft, slot_state};

    ghost Value = { ServerState };

    ghost coded = { Prim.hlevel (codes, map.code, coded_ℕ) };

    ghost view = { λ s. slot_state s.config s.id.0 s.server s.before.items };

    ghost invariant = { λ s. IsForServers s.config
        × IsServerOf s.config s.id.0 (slot_state s.config s.id.0 s.server s.before.items)
        × IsDiskLeft s.config s.id.0 s.server s.before.items s.disk };
}

impl ServerSlot {
    /// A server on what a disk holds: on one that an earlier server left, or on a new one, which is formatted.
    pub fn open(
        alloc: Global,
        config: Config,
        id: ServerId,
        disk: MemDisk<Global>,
        now: Moment,
    ) -> Result<ServerSlot, ReplicaStoreFault>
        requires settings { IsForServers config }
        requires moment { now.0 ≤ moment_limit }
        requires holds { (d : ServerDisk) × HoldsReplicas config.chunk config.block config.slots disk.bytes d }
        ensures { (d : ServerDisk) → HoldsReplicas config.chunk config.block config.slots disk.bytes d → IfOk result (λ s. s ≡ started_server config id.0 d now.0) }
    {
        match Server::open(alloc, config, id, FuseDisk::new(disk), now) {
            Ok(server) => Ok(ServerSlot {
                alloc,
                config,
                id,
                server: Some(server),
                disk: None,
                before: GhostList::new(),
                stops: StopPlan::new(),
            }),
            Err((_disk, fault)) => Err(fault),
        }
    }

    /// Whether the server is up. One that is down takes no step.
    pub fn is_up(&self) -> bool
        ensures { result ≡ self.now.up }
    {
        match &self.server {
            Some(server) => server.is_up(),
            None => false,
        }
    }

    /// The server's number.
    pub fn id(&self) -> ServerId
        ensures { result.0 ≡ self.now.id }
    {
        self.id
    }

    /// What a server that is up knows of a replica.
    pub fn row(&self, handle: Handle) -> Option<Row>
        requires { self.now.up ≡ true }
        ensures { result ≡ row_at self.now.disk handle.0 }
    {
        match &self.server {
            Some(server) => server.row(handle),
            None => None,
        }
    }

    /// The server is put down in a step, before it changed anything. Takes no memory.
    pub fn stop(&mut self)
        requires { self.old.up ≡ true }
        ensures { self.new ≡ stopped_server self.old self.old.disk [] }
    {
        let Some(server) = &mut self.server else {
            return;
        };
        server.stop();
    }

    /// A byte of a replica becomes another on the disk, past its digest; nothing happens where there is no such replica. Where the change
    /// fails, the server goes down.
    pub fn rot(&mut self, handle: Handle, place: u64, byte: u8)
        requires { self.old.up ≡ true }
        ensures { ServerRots self.old handle.0 place byte self.new }
    {
        let Some(server) = &mut self.server else {
            return;
        };
        server.rot(handle, place, byte);
    }

    /// A step of the server on a message, or on a tick.
    pub fn step(&mut self, now: Moment, message: Option<&Message>) -> Outcome
        requires { now.0 ≤ moment_limit }
        ensures { ServerSteps self.old now.0 (input_of (option_copied message.entry)) result.out result.seen self.new }
    {
        let Some(server) = &mut self.server else {
            return Outcome::nothing(self.alloc);
        };
        server.take_step(now, message)
    }

    /// The disk of a server that is up lets so many calls pass and fails each later one until the next restart, which finds unsynced ranges as
    /// `torn` says. That of a server that is down does so once the next restart has begun.
    pub fn fuse(&mut self, calls: u64, torn: Torn)
        ensures { self.new ≡ self.old }
    {
        if !self.is_up() {
            self.stops.stop_after_restart(calls, torn);
            return;
        }
        if let Some(server) = &mut self.server {
            server.arm(calls);
            self.stops.tear(torn);
        }
    }

    // The disk of the server, which is put down and let go.
    fn take_disk(&mut self) -> Option<FuseDisk<Global>>
        ensures down { self.new ≡ stopped_server self.old self.old.disk self.old.under_way }
        ensures left { IfSome result (λ f. LeavesHolding (LeftBy f.disk) self.old.disk self.old.under_way) }
    {
        match self.server.take() {
            Some(server) => {
                self.before = GhostList::new().and(&server);
                self.disk = None;
                Some(server.into_disk())
            }
            None => self.disk.take(),
        }
    }

    /// The server begins again, whether it was up or down: its disk stops, and the server is opened over what the stop left. Where it can't be
    /// opened, it is down.
    pub fn restart(&mut self, now: Moment) -> StepOut
        requires { now.0 ≤ moment_limit }
        ensures { ServerRestarts self.old now.0 result self.new }
    {
        let Some(disk) = self.take_disk() else {
            return down_output(self.alloc);
        };
        let disk = self.stops.restart(disk);
        match Server::open(self.alloc, self.config, self.id, disk, now) {
            Ok(server) => {
                self.server = Some(server);
                no_output(self.alloc)
            }
            Err((disk, _fault)) => {
                self.disk = Some(disk);
                down_output(self.alloc)
            }
        }
    }
}
