//! The replay of records of files and chunks (sections 2.6.1, 3.1 and 3.4).

ghost use Rattle.std.specs.Prelude.{◌≡◌, OnOk, IsErrOf, IsTrue, IsFalse};
ghost use Rattle.std.specs.FinMap as map;
ghost use Rattle.log_records.specs.declared.record.Record.TheVariants as log;
ghost use Rattle.chunk_table.specs.ChunkTable.{grant};
ghost use Rattle.protocol.specs.Logged.{after_record, swapped_in};
ghost use Rattle.master_state.specs.Follows.{follows, table_of, grant_follows, is_at_index, swap_follows};
ghost use Rattle.chunk_table.specs.ChunkTable.{chunk_of};
ghost use Rattle.master_state.specs.declared.fault.ReplayFault.TheVariants.{Damaged};

use crate::fault::ReplayFault;
use crate::kept::CopyRow;
use crate::names::path_of;
use crate::state::State;
use chunk_table::chunk::NO_SHAPE;
use chunk_table::fault::TableFault;
use gfs_types::ids::{ClientId, FileId, Handle, ServerId, Version};
use gfs_types::lists::{ServerList, Text};
use gfs_types::shape::Shape;
use namespace::node::NameNode;
use std::alloc::Allocator;

impl<A: Allocator + Clone> State<A> {
    /// The replay of an AddChunk.
    pub fn add_chunk(&mut self, file: FileId, handle: Handle) -> Result<(), ReplayFault>
        ensures ok { OnOk result (self.new ≡ after_record self.old (log.AddChunk file handle)) }
        ensures follows { OnOk result (IsTrue (follows self.old (log.AddChunk file handle))) }
        ensures damaged { IsErrOf result Damaged → IsFalse (follows self.old (log.AddChunk file handle)) }
    {
        if handle != self.table.next_handle() {
            return Err(ReplayFault::Damaged);
        }
        match self.table.add_chunk(file) {
            Ok(_) => Ok(()),
            Err(TableFault::NoMemory) => Err(ReplayFault::NoMemory),
            Err(_) => Err(ReplayFault::Damaged),
        }
    }

    /// The replay of an Issue. Takes no memory.
    pub fn issue(&mut self, handle: Handle, version: Version) -> Result<(), ReplayFault>
        ensures ok { OnOk result (self.new ≡ after_record self.old (log.Issue handle version)) }
        ensures follows { OnOk result (IsTrue (follows self.old (log.Issue handle version))) }
        ensures damaged { IsErrOf result Damaged → IsFalse (follows self.old (log.Issue handle version)) }
    {
        let Some(chunk) = self.table.chunk(handle) else {
            return Ok(());
        };
        if chunk.issued().0 >= version.0 || chunk.issued().0 + 1 != version.0 {
            return Err(ReplayFault::Damaged);
        }
        match self.table.issue(handle) {
            Ok(_) => Ok(()),
            Err(_) => Err(ReplayFault::Damaged),
        }
    }

    /// The replay of a Create.
    pub fn create(
        &mut self,
        client: ClientId,
        call: u64,
        file: FileId,
        shape: Option<Shape>,
        path: &Text,
    ) -> Result<(), ReplayFault>
        ensures ok { OnOk result (self.new ≡ after_record self.old (log.Create client call file shape path.now)) }
        ensures follows { OnOk result (IsTrue (follows self.old (log.Create client call file shape path.now))) }
        ensures damaged { IsErrOf result Damaged → IsFalse (follows self.old (log.Create client call file shape path.now)) }
    {
        let path = path_of(self.alloc, path)?;
        if file != self.table.next_file() {
            return Err(ReplayFault::Damaged);
        }
        match self.table.add_file(NO_SHAPE.or(shape)) {
            Ok(_) => {}
            Err(TableFault::NoMemory) => return Err(ReplayFault::NoMemory),
            Err(_) => return Err(ReplayFault::Damaged),
        }
        self.put_name(&path, NameNode::file(file))?;
        self.keep(client, call, None)?;
        Ok(())
    }

    /// The replay of a Grant. The copy of a shared chunk takes that chunk's place.
    pub fn grant(
        &mut self,
        handle: Handle,
        version: Version,
        primary: ServerId,
        members: &ServerList,
    ) -> Result<(), ReplayFault>
        ensures ok { OnOk result (self.new ≡ after_record self.old (log.Grant handle version primary members.now)) }
        ensures follows { OnOk result (IsTrue (follows self.old (log.Grant handle version primary members.now))) }
        ensures damaged { IsErrOf result Damaged → IsFalse (follows self.old (log.Grant handle version primary members.now)) }
    {
        let members = members.copy(self.alloc)?;
        self.grant_row(handle, version, primary, members)?;
        self.swap_in(handle)
    }

    fn grant_row(
        &mut self,
        handle: Handle,
        version: Version,
        primary: ServerId,
        members: ServerList,
    ) -> Result<(), ReplayFault>
        ensures ok { OnOk result (self.new ≡ record self.old { table = grant self.old.table handle.0 version.0 primary.0 members }) }
        ensures follows { OnOk result (IsTrue (grant_follows version.0 (chunk_of self.old.table handle.0))) }
        ensures damaged { IsErrOf result Damaged → IsFalse (grant_follows version.0 (chunk_of self.old.table handle.0)) }
    {
        if self.table.chunk(handle).is_none() {
            return Ok(());
        }
        match self.table.grant(handle, version, primary, members) {
            Ok(()) => Ok(()),
            Err(_) => Err(ReplayFault::Damaged),
        }
    }

    // A copy that is under way under this handle takes its file's chunk's place.
    fn swap_in(&mut self, handle: Handle) -> Result<(), ReplayFault>
        ensures ok { OnOk result (self.new ≡ swapped_in self.old handle.0 (map.get self.old.copies handle.0)) }
        ensures follows { OnOk result (IsTrue (swap_follows (table_of self.old) handle.0 (map.get self.old.copies handle.0))) }
        ensures damaged { IsErrOf result Damaged → IsFalse (swap_follows (table_of self.old) handle.0 (map.get self.old.copies handle.0)) }
    {
        let Some(copy) = self.copies.get(handle.0) else {
            return Ok(());
        };
        let index = copy.index() as usize;
        let file = copy.file();
        let source = copy.source();
        let Some(handles) = self.table.file(file) else {
            return Err(ReplayFault::Damaged);
        };
        if !is_at_index(handles.as_slice(), index, source.0) {
            return Err(ReplayFault::Damaged);
        }
        match self.table.swap(file, index, handle) {
            Ok(()) => {}
            Err(_) => return Err(ReplayFault::Damaged),
        }
        self.copies.remove(handle.0);
        Ok(())
    }

    /// The replay of a CopyStart.
    pub fn start_copy(
        &mut self,
        file: FileId,
        index: u64,
        handle: Handle,
        copy: Handle,
        copy_version: Version,
    ) -> Result<(), ReplayFault>
        ensures ok { OnOk result (self.new ≡ after_record self.old (log.CopyStart file index handle copy copy_version)) }
        ensures follows { OnOk result (IsTrue (follows self.old (log.CopyStart file index handle copy copy_version))) }
        ensures damaged { IsErrOf result Damaged → IsFalse (follows self.old (log.CopyStart file index handle copy copy_version)) }
    {
        let Some(chunk) = self.table.chunk(handle) else {
            return Err(ReplayFault::Damaged);
        };
        let issued = chunk.issued().0;
        if copy != self.table.next_handle()
            || issued >= copy_version.0
            || issued + 1 != copy_version.0
        {
            return Err(ReplayFault::Damaged);
        }
        match self.table.start_copy(handle) {
            Ok(_) => {}
            Err(TableFault::NoMemory) => return Err(ReplayFault::NoMemory),
            Err(_) => return Err(ReplayFault::Damaged),
        }
        self.copies
            .insert(copy.0, CopyRow::new(file, index, handle))?;
        Ok(())
    }

    /// The replay of a ChunkItem.
    pub fn put_chunk_item(
        &mut self,
        handle: Handle,
        granted: Version,
        issued: Version,
        primary: ServerId,
        members: &ServerList,
    ) -> Result<(), ReplayFault>
        ensures ok { OnOk result (self.new ≡ after_record self.old (log.ChunkItem handle granted issued primary members.now)) }
        ensures follows { OnOk result (IsTrue (follows self.old (log.ChunkItem handle granted issued primary members.now))) }
        ensures damaged { IsErrOf result Damaged → IsFalse (follows self.old (log.ChunkItem handle granted issued primary members.now)) }
    {
        if self.table.chunk(handle).is_none() {
            return Ok(());
        }
        let members = members.copy(self.alloc)?;
        match self
            .table
            .put_row(handle, granted, issued, primary, members)
        {
            Ok(()) => Ok(()),
            Err(_) => Err(ReplayFault::Damaged),
        }
    }
}

// Whether this handle stands at that place.
fn is_at_index(handles: &[u64], index: usize, handle: u64) -> bool
    ensures { result ≡ is_at_index handles.now index handle }
{
    index < handles.len() && handles[index] == handle
}
