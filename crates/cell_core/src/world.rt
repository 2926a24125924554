//! A cell that a list of events led to, with the headline as the contract of its steps, runs and rebases.

ghost use Rattle.std.specs.Prelude.{◌≡◌, ◌≤◌, ◌<◌, ◌+◌, [], None, length, map, option_map, IfOk, IfErr, OnOk, OnErr};
ghost use Rattle.std.specs.Option.{option_copied};
ghost use Rattle.std.specs.FinMap as table;
ghost use Rattle.protocol.specs.Lookups.{file_named, regions_at, replicas_at};
ghost use Rattle.protocol.specs.MasterStep.{new_master};
ghost use Rattle.protocol.specs.Sending.{file_id};
ghost use Rattle.protocol.specs.Server.{started_server};
ghost use Rattle.protocol.specs.Tables.{first_numbers};
ghost use Rattle.protocol.specs.World.{happens, new_world, numbered_from_1};
ghost use Rattle.replica_store.specs.Replicas.{new_server_disk};
ghost use Rattle.cell_core.specs.Headline.{RebasesAsMachine, RunsAsMachine, StepsAsMachine};
ghost use Rattle.cell_core.specs.Standing.{DropsAll, IsShown};
ghost use Rattle.memory_nodes.specs.Starts.{IsStartFault, bad_start};
ghost use Rattle.cell_world.specs.AsStored.{as_stored};
ghost use Rattle.cell_world.specs.Held.{HasEffect, IsHeldAs};
ghost use Rattle.cell_world.specs.Looks.{file_held, has_open_call, regions_held, replicas_held, server_count};
ghost use Rattle.cell_world.specs.Rebasing.{IsBehind, Rebases};
ghost use Rattle.cell_world.specs.Runs.{Runs};

use cell_world::cell::CellState;
use cell_world::fault::RunFault;
use cell_world::rebase_fault::RebaseFault;
use gfs_types::answer::Answer;
use gfs_types::config::Config;
use gfs_types::ids::{ClientId, FileId, Handle, Moment};
use gfs_types::no_memory::NoMemory;
use gfs_types::path::Path;
use memory_nodes::making::{are_fitting, have_room, is_count, new_servers};
use memory_nodes::master_slot::MasterSlot;
use memory_nodes::start_fault::StartFault;
use messages::event::Event;
use messages::message::Message;
use relaxed_file::region::Region;
use script::stored::StoredReplica;
use server_cell::server_slot::ServerSlot;
use std::alloc::{Allocator, Global};
use std::marker::Model;

/// One master, whose names lie in `A`, and chunkservers and clients by their numbers, from 1, with each message that was sent since they
/// were dropped last. Each is what a list of events led to from a new cell.
pub struct World<A: Allocator + Clone> {
    cell: CellState<MasterSlot<A>>,
}

// Stands here, once, so that no crate above proves the drops of all that a cell owns.
impl<A: Allocator + Clone> Drop for World<A> {
    fn drop(self) {
        let Self { cell: _cell } = self;
    }
}

impl<A: Allocator + Clone> Model for World<A> {
    ghost use Rattle.std.specs.Coded.{codes, coded_ℕ, coded_list};
    ghost use Rattle.std.specs.FinMap as map;
    ghost use Rattle.lru.specs.LruCache.{lru_cache_code};
    ghost use Rattle.cell_world.specs.Held.{HeldCell};
    ghost use Rattle.cell_core.specs.Standing.{HasReachedWorld};

    ghost Value = { HeldCell };

    ghost coded = { Prim.hlevel (codes, map.code, lru_cache_code, coded_list, coded_ℕ) };

    ghost view = { λ w. w.cell };

    ghost invariant = { λ w. HasReachedWorld w.cell };
}

impl<A: Allocator + Clone> World<A> {
    /// A new cell of so many servers and clients, whose names lie in `A`. Its nodes' disks lie in memory.
    pub fn new(
        alloc: Global,
        config: Config,
        servers: u64,
        clients: u64,
        names: A,
    ) -> Result<World<A>, StartFault>
        ensures new { IfOk result (λ world. IsHeldAs (new_world config servers clients) world) }
        ensures good { OnOk result (bad_start config servers clients ≡ None) }
        ensures fault { IfErr result (IsStartFault (bad_start config servers clients)) }
    {
        if !are_fitting(&config) {
            return Err(StartFault::Config);
        }
        let Ok(server_count) = u16::try_from(servers) else {
            return Err(StartFault::Count);
        };
        if !is_count(servers) || !is_count(clients) {
            return Err(StartFault::Count);
        }
        if !have_room(alloc, &names)? {
            return Err(StartFault::NamesFull);
        }
        let master = MasterSlot::new(alloc, config, server_count, names)?;
        let servers = new_servers(alloc, config, server_count)?;
        Ok(World::of_nodes(alloc, config, master, servers, clients)?)
    }

    // A new cell of a new master, new servers by their numbers, and new clients.
    fn of_nodes(
        alloc: Global,
        config: Config,
        master: MasterSlot<A>,
        servers: Vec<ServerSlot>,
        clients: u64,
    ) -> Result<World<A>, NoMemory>
        requires chunk { 0 < config.chunk }
        requires servers { servers.items ≡ map (λ s. started_server config s (new_server_disk config.chunk config.block config.slots) 0) (first_numbers (length servers.items)) }
        requires master { master.state ≡ new_master config (length servers.items) }
        requires files { master.files ≡ table.empty }
        ensures { IfOk result (λ world. IsHeldAs (new_world config (length servers.items) clients) world) }
    {
        let cell = CellState::new(alloc, config, master, servers, clients)?;
        Ok(World { cell })
    }
}

impl<A: Allocator + Clone> World<A> {
    /// One event, and what it answers. One that names no such node, message, replica, place or moment, or, but for a restart or a fuse, a
    /// node that is down, changes nothing. Where clocks and disks were kept, a run of the machine has the calls and answers so far, and led to
    /// what the cell shows.
    pub fn step(&mut self, event: Event) -> Option<Answer>
        ensures steps { HasEffect self.old (λ w choice. happens w event choice) result self.new }
        ensures explained { StepsAsMachine self.old event result self.new }
    {
        self.cell.step(event)
    }

    /// The events in order, and their answers: where clocks and disks were kept, a run of the machine has the calls and answers so far, and led to
    /// what the cell shows.
    ///
    /// - `NoMemory`: memory was refused before the first event, and nothing has changed.
    pub fn run(&mut self, alloc: Global, events: &[Event]) -> Result<Vec<Answer>, RunFault>
        ensures ok { IfOk result (λ answers. Runs self.old events.now answers.items self.new) }
        ensures explained { IfOk result (λ answers. RunsAsMachine self.old events.now answers.items self.new) }
        ensures err { OnErr result (self.new ≡ self.old) }
    {
        self.cell.run(alloc, events)
    }

    /// The master and then each server, in rising number, begin again at a moment that an event may have. Then all messages are dropped, and the
    /// next one has the number 1. Clients, the chunks' orders and what clients saw stay. A node that can't open is down. At an
    /// error nothing has changed.
    ///
    /// - `Clock`: the moment is more than the clock bound behind the greatest one that a node was given.
    pub fn rebase(self, now: Moment) -> Result<World<A>, (World<A>, RebaseFault)>
        ensures ok { IfOk result (λ world. Rebases self now.0 world) }
        ensures explained { IfOk result (λ world. RebasesAsMachine self now.0 world) }
        ensures clock { OnOk result (self.greatest ≤ now.0 + self.config.skew_ms) }
        ensures fault { IfErr result (λ failed. (failed.1 ≡ RebaseFault.Clock) × IsBehind self now.0) }
        ensures err { IfErr result (λ failed. failed.0 ≡ self) }
    {
        let mut world = self;
        match world.rebase_in_place(now) {
            Ok(()) => Ok(world),
            Err(fault) => Err((world, fault)),
        }
    }

    /// The same where the world lies.
    pub fn rebase_in_place(&mut self, now: Moment) -> Result<(), RebaseFault>
        ensures ok { OnOk result (Rebases self.old now.0 self.new) }
        ensures explained { OnOk result (RebasesAsMachine self.old now.0 self.new) }
        ensures clock { OnOk result (self.old.greatest ≤ now.0 + self.old.config.skew_ms) }
        ensures fault { IfErr result (λ fault. (fault ≡ RebaseFault.Clock) × IsBehind self.old now.0) }
        ensures err { OnErr result (self.new ≡ self.old) }
    {
        self.cell.rebase(now)
    }

    /// All messages are dropped, and the next one has the number 1. None of them comes any more, as those of a network may be lost, so the
    /// cell stands for the same worlds.
    pub fn drop_messages(&mut self)
        ensures held { self.new ≡ record self.old { sent = [] } }
        ensures stands { DropsAll self.old self.new }
    {
        self.cell.drop_messages();
    }

    /// The file that a path names; none where it names no file, and while the master is down.
    pub fn file(&self, path: &Path) -> Option<FileId>
        ensures held { result ≡ file_held self.now path.now }
        ensures world { IsShown self.now (λ w. option_map file_id (file_named w path.now)) result }
    {
        self.cell.file(path)
    }

    /// The regions of a file's chunk of this index, from 0.
    pub fn regions(
        &self,
        alloc: Global,
        file: FileId,
        index: u64,
    ) -> Result<Option<Vec<Region>>, NoMemory>
        ensures held { IfOk result (λ found. option_map (λ v. v.items) found ≡ regions_held self.now file.0 index) }
        ensures world { IfOk result (λ found. IsShown self.now (λ w. regions_at w file.0 index) (option_map (λ v. v.items) found)) }
    {
        self.cell.regions(alloc, file, index)
    }

    /// The handle of a file's chunk of this index, from 0, and each replica that is stored on a server that is up, by rising server.
    pub fn replicas(
        &self,
        alloc: Global,
        file: FileId,
        index: u64,
    ) -> Result<Option<(Handle, Vec<StoredReplica>)>, NoMemory>
        ensures held { IfOk result (λ found. option_map (λ c. (c.0.0, map as_stored c.1.items)) found ≡ replicas_held self.now file.0 index) }
        ensures world { IfOk result (λ found. IsShown self.now (λ w. replicas_at w file.0 index) (option_map (λ c. (c.0.0, map as_stored c.1.items)) found)) }
    {
        self.cell.replicas(alloc, file, index)
    }

    /// How many messages were sent since they were dropped last, which is the last one's number.
    pub fn message_count(&self) -> u64
        ensures { result ≡ length self.now.sent }
    {
        self.cell.message_count()
    }

    /// The message of a number, from 1.
    pub fn message(&self, number: u64) -> Option<&Message>
        ensures { option_copied result ≡ numbered_from_1 self.now.sent number }
    {
        self.cell.message(number)
    }

    /// How many servers there are. They are numbered up to 65,535.
    pub fn server_count(&self) -> u16
        ensures { result ≡ server_count self.now }
    {
        self.cell.server_count()
    }

    /// How many clients there are.
    pub fn client_count(&self) -> u64
        ensures { result ≡ length self.now.clients }
    {
        self.cell.client_count()
    }

    /// Whether a client's call waits for its answer. False: no call of it is open, it takes no step any more, or there is no such
    /// client.
    pub fn has_open_call(&self, client: ClientId) -> bool
        ensures { result ≡ has_open_call self.now client.0 }
    {
        self.cell.has_open_call(client)
    }
}
