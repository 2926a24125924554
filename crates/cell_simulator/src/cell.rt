//! What a simulator asks of a cell.

ghost use Rattle.std.specs.Prelude.{◌≡◌, IfOk, option_map};
ghost use Rattle.std.specs.Option.{option_copied};
ghost use Rattle.cell_simulator.specs.Cells.{Meaning};

use gfs_types::answer::Answer;
use gfs_types::ids::{ClientId, FileId, Handle, Moment};
use gfs_types::no_memory::NoMemory;
use gfs_types::path::Path;
use messages::event::Event;
use messages::message::Message;
use relaxed_file::region::Region;
use script::stored::StoredReplica;
use std::alloc::Global;

/// A cell that takes events. Servers and clients count from 1.
pub trait SimulatedCell {
    /// What its methods answer, and what a step may come to.
    ghost meaning: { Meaning Self };

    /// One event, and what it answers.
    fn step(&mut self, event: Event) -> Option<Answer>
        ensures { meaning.steps self.old event result self.new };

    /// The master and then each server, in rising number, begin again at a moment that an event may have, and all messages are dropped.
    fn rebase(&mut self, now: Moment)
        ensures { meaning.rebases self.old now.0 self.new };

    /// All messages may be dropped, since none of them comes any more. How many are left, behind which numbers go on.
    fn drop_messages(&mut self) -> u64
        ensures drops { meaning.drops self.old self.new }
        ensures count { result ≡ meaning.count self.new };

    /// The message of a number. Messages are numbered from 1 in the order of sending, since they were dropped last.
    fn message(&self, number: u64) -> Option<&Message>
        ensures { option_copied result ≡ meaning.message self.now number };

    fn server_count(&self) -> u16
        ensures { result ≡ meaning.servers self.now };

    fn client_count(&self) -> u64
        ensures { result ≡ meaning.clients self.now };

    /// Whether a client's call waits for its answer.
    fn has_open_call(&self, client: ClientId) -> bool
        ensures { result ≡ meaning.is_open self.now client };

    /// The file that a path names; none where it names no file, and while the master is down.
    fn file(&self, path: &Path) -> Option<FileId>
        ensures { result ≡ meaning.file self.now path.now };

    /// The regions of a file's chunk of this index, from 0. None: the file has no such chunk.
    fn regions(
        &self,
        alloc: Global,
        file: FileId,
        index: u64,
    ) -> Result<Option<Vec<Region>>, NoMemory>
        ensures { IfOk result (λ found. option_map (λ v. v.items) found ≡ meaning.regions self.now file index) };

    /// The handle of a file's chunk of this index, from 0, and each replica on a server that is up, by rising server. None: the
    /// file has no such chunk.
    fn replicas(
        &self,
        alloc: Global,
        file: FileId,
        index: u64,
    ) -> Result<Option<(Handle, Vec<StoredReplica>)>, NoMemory>
        ensures { IfOk result (λ found. option_map (λ c. (c.0, c.1.items)) found ≡ meaning.replicas self.now file index) };
}
