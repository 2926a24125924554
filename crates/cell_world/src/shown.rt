//! What is shown of a cell beside answers (section 2.7.1).

ghost use Rattle.std.specs.Prelude.{◌≡◌, IfOk, length, map, option_map};
ghost use Rattle.std.specs.List.{filter_map};
ghost use Rattle.std.specs.Option.{option_copied};
ghost use Rattle.protocol.specs.Lookups.{file_named, regions_at, replicas_at, stored_on};
ghost use Rattle.protocol.specs.Sending.{file_id, handle_of};
ghost use Rattle.protocol.specs.World.{WorldState, numbered_from_1};
ghost use Rattle.cell_world.specs.Held.{IsHeldAs};
ghost use Rattle.cell_world.specs.AsStored.{as_stored};
ghost use Rattle.cell_world.specs.Looks.{file_held, regions_held, replicas_held};

use crate::cell::CellState;
use crate::master::CellMaster;
use gfs_types::ids::{FileId, Handle};
use gfs_types::no_memory::NoMemory;
use gfs_types::path::Path;
use messages::message::Message;
use relaxed_file::region::Region;
use script::stored::StoredReplica;
use server_cell::server_slot::ServerSlot;
use std::alloc::Global;

impl<M: CellMaster> CellState<M> {
    /// The file that a path names; none where it names no file, and while the master is down.
    pub fn file(&self, path: &Path) -> Option<FileId>
        ensures held { result ≡ file_held self.now path.now }
        ensures world { (w : WorldState) → IsHeldAs w self.now → result ≡ option_map file_id (file_named w path.now) }
    {
        self.master.file(path)
    }

    /// The regions of a file's chunk of this index, from 0: the maximal ranges below the greatest end of its mutations whose bytes
    /// are all determined or all undetermined. None: the file has no such chunk, as it stood when the master was last up.
    pub fn regions(
        &self,
        alloc: Global,
        file: FileId,
        index: u64,
    ) -> Result<Option<Vec<Region>>, NoMemory>
        ensures held { IfOk result (λ found. option_map (λ v. v.items) found ≡ regions_held self.now file.0 index) }
        ensures world { IfOk result (λ found. (w : WorldState) → IsHeldAs w self.now → option_map (λ v. v.items) found ≡ regions_at w file.0 index) }
    {
        let Some(handle) = self.master.handle_at(file, index) else {
            return Ok(None);
        };
        Ok(Some(self.record.sights.regions(alloc, handle)?))
    }

    /// The handle of a file's chunk of this index, from 0, and each replica that is stored on a server that is up, by rising
    /// server. None: the file has no such chunk, as it stood when the master was last up.
    pub fn replicas(
        &self,
        alloc: Global,
        file: FileId,
        index: u64,
    ) -> Result<Option<(Handle, Vec<StoredReplica>)>, NoMemory>
        ensures held { IfOk result (λ found. option_map (λ c. (c.0.0, map as_stored c.1.items)) found ≡ replicas_held self.now file.0 index) }
        ensures world { IfOk result (λ found. (w : WorldState) → IsHeldAs w self.now → option_map (λ c. (c.0.0, map as_stored c.1.items)) found ≡ replicas_at w file.0 index) }
    {
        let Some(handle) = self.master.handle_at(file, index) else {
            return Ok(None);
        };
        Ok(Some((
            handle,
            stored_on_all(alloc, self.servers.as_slice(), handle)?,
        )))
    }

    /// How many messages there are, which is the last one's number.
    pub fn message_count(&self) -> u64
        ensures { result ≡ length self.now.sent }
    {
        self.record.network.count()
    }

    /// The message of a number, from 1.
    pub fn message(&self, number: u64) -> Option<&Message>
        ensures { option_copied result ≡ numbered_from_1 self.now.sent number }
    {
        self.record.network.get(number)
    }
}

fn stored_on_all(
    alloc: Global,
    servers: &[ServerSlot],
    handle: Handle,
) -> Result<Vec<StoredReplica>, NoMemory>
    ensures { IfOk result (λ all. map as_stored all.items ≡ filter_map (stored_on handle.0) servers.now) }
{
    let mut all = Vec::new(alloc);
    for server in servers {
        if let Some(replica) = stored(server, handle) {
            all.push(replica)?;
        }
    }
    Ok(all)
}

/// The replica that is stored on a server, if it is up and has one.
pub fn stored(server: &ServerSlot, handle: Handle) -> Option<StoredReplica>
    ensures { option_map as_stored result ≡ stored_on handle.0 server.now }
{
    if !server.is_up() {
        return None;
    }
    let row = server.row(handle)?;
    Some(StoredReplica {
        server: server.id(),
        version: row.version,
        length: row.count,
    })
}
