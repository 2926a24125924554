//! The cell of many servers as a simulated cell.

ghost use Rattle.shell.specs.Worlds.{meaning_of};

use cell_core::world::World;
use cell_simulator::cell::SimulatedCell;
use gfs_types::answer::Answer;
use gfs_types::ids::{ClientId, FileId, Handle, Moment};
use gfs_types::no_memory::NoMemory;
use gfs_types::path::Path;
use messages::event::Event;
use messages::message::Message;
use relaxed_file::region::Region;
use script::stored::StoredReplica;
use std::alloc::{Allocator, Global};

/// A cell that a script drives.
#[derive(Drop)]
pub struct SimulatedWorld<A: Allocator + Clone> {
    pub world: World<A>,
}

impl<A: Allocator + Clone> SimulatedCell for SimulatedWorld<A> {
    ghost meaning = { meaning_of (λ c. c.world) };

    fn step(&mut self, event: Event) -> Option<Answer> {
        self.world.step(event)
    }

    fn rebase(&mut self, now: Moment) {
        let _ = self.world.rebase_in_place(now);
    }

    fn drop_messages(&mut self) -> u64 {
        self.world.drop_messages();
        self.world.message_count()
    }

    fn message(&self, number: u64) -> Option<&Message> {
        self.world.message(number)
    }

    fn server_count(&self) -> u16 {
        self.world.server_count()
    }

    fn client_count(&self) -> u64 {
        self.world.client_count()
    }

    fn has_open_call(&self, client: ClientId) -> bool {
        self.world.has_open_call(client)
    }

    fn file(&self, path: &Path) -> Option<FileId> {
        self.world.file(path)
    }

    fn regions(
        &self,
        alloc: Global,
        file: FileId,
        index: u64,
    ) -> Result<Option<Vec<Region>>, NoMemory> {
        self.world.regions(alloc, file, index)
    }

    fn replicas(
        &self,
        alloc: Global,
        file: FileId,
        index: u64,
    ) -> Result<Option<(Handle, Vec<StoredReplica>)>, NoMemory> {
        self.world.replicas(alloc, file, index)
    }
}
