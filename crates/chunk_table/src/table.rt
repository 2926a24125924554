//! The table of files and chunks.

ghost use Rattle.std.specs.Prelude.{◌≡◌, ℕ, ◌<◌, ◌≤◌, Some, None, IfOk, OnOk, OnErr};
ghost use Rattle.std.specs.List.{list_all};
ghost use Rattle.std.specs.Option.{option_copied};
ghost use Rattle.gfs_types.specs.Counters.{counter_limit};
ghost use Rattle.chunk_table.specs.ChunkTable.{new_table, new_chunk_table, file_of, shape_of, chunk_of, shape_in, row_issued, row_granted, row_ended, row_put, row_restarted, with_file, with_chunk, with_known_shape, with_row_changed, with_shared, with_swapped, without_file, with_copy, without_copy, with_counters, with_put_file};
ghost use Rattle.chunk_table.specs.Owners.{IsSound};
ghost use Rattle.chunk_table.specs.Refusals.{RefusedFor, RefusedExactly, add_file_refusal, add_chunk_refusal, issue_refusal, grant_refusal, put_row_refusal, share_refusal, swap_refusal, drop_refusal, start_copy_refusal, give_up_copy_refusal, version_after, is_given, counters_refusal, put_file_refusal};

use crate::chunk::{Chunk, NO_SHAPE};
use crate::chunks::{
    end_at, grant_at, issue_at, leave_at, leave_each, own_each, put_at, restart_at, share_at,
};
use crate::fault::TableFault;
use crate::files::{insert_file, know_at, push_at, set_at, share_file};
use gfs_types::ids::{FileId, Handle, MAX_COUNTER, Moment, ServerId, Version};
use gfs_types::lists::{HandleList, ServerList};
use gfs_types::no_memory::NoMemory;
use gfs_types::shape::Shape;
use ordered_map::number_map::NumberMap;
use std::alloc::Global;
use std::marker::Model;

/// The files' lists of handles, their shapes, and the chunks by handle, with the next file id and the next handle.
#[derive(Drop)]
pub struct Table {
    alloc: Global,
    files: NumberMap<HandleList>,
    // of the same files
    shapes: NumberMap<Shape>,
    chunks: NumberMap<Chunk>,
    next_file: u64,
    next_handle: u64,
    // the owners of all chunks together
    owners: u64,
}

impl Model for Table {
    ghost use Rattle.std.specs.Prelude.{◌≡◌};
    ghost use Rattle.chunk_table.specs.ChunkTable.{TableState, coded_table};
    ghost use Rattle.chunk_table.specs.Owners.{IsSound, all_owners};

    ghost Value = { TableState };

    ghost coded = { coded_table };

    ghost view = { λ t. record {
      table = record { files = t.files; shapes = t.shapes; chunks = t.chunks };
      next_file = t.next_file;
      next_handle = t.next_handle;
    } };

    ghost invariant = { λ t. IsSound
        (record {
          table = record { files = t.files; shapes = t.shapes; chunks = t.chunks };
          next_file = t.next_file;
          next_handle = t.next_handle;
        })
        × (t.owners ≡ all_owners t.files) };
}

impl Table {
    /// A table without files. Takes no memory.
    pub fn new(alloc: Global) -> Table
        ensures { result ≡ new_table }
    {
        Table::counting_from(alloc, 1, 1)
    }

    // A table without files, whose next file and next chunk take these numbers.
    pub(crate) fn counting_from(alloc: Global, next_file: u64, next_handle: u64) -> Table
        requires file { (1 ≤ next_file) × (next_file ≤ counter_limit) }
        requires handle { (1 ≤ next_handle) × (next_handle ≤ counter_limit) }
        ensures { result ≡ record { table = new_chunk_table; next_file = next_file; next_handle = next_handle } }
    {
        Table {
            alloc,
            files: NumberMap::new(alloc),
            shapes: NumberMap::new(alloc),
            chunks: NumberMap::new(alloc),
            next_file,
            next_handle,
            owners: 0,
        }
    }

    /// The id that the next file takes.
    pub fn next_file(&self) -> FileId
        ensures { result.0 ≡ self.now.next_file }
    {
        FileId(self.next_file)
    }

    /// The handle that the next chunk takes.
    pub fn next_handle(&self) -> Handle
        ensures { result.0 ≡ self.now.next_handle }
    {
        Handle(self.next_handle)
    }

    /// The handles of a file's chunks, in the order of their index.
    pub fn file(&self, file: FileId) -> Option<&HandleList>
        ensures { option_copied result ≡ file_of self.now.table file.0 }
    {
        self.files.get(file.0)
    }

    /// A file's shape. [`NO_SHAPE`] where it isn't known, or where there is no such file.
    pub fn shape(&self, file: FileId) -> Shape
        ensures { result ≡ shape_of self.now.table file.0 }
    {
        match self.shapes.get(file.0) {
            Some(shape) => *shape,
            None => NO_SHAPE,
        }
    }

    /// What is kept of a chunk.
    pub fn chunk(&self, handle: Handle) -> Option<&Chunk>
        ensures { option_copied result ≡ chunk_of self.now.table handle.0 }
    {
        self.chunks.get(handle.0)
    }

    /// Does nothing. Its clause says what holds of every table: among others that a chunk's granted version is at most its
    /// issued one, and that its reference count is the number of its owners.
    pub fn is_sound(&self)
        ensures { IsSound self.now }
    {
        let _next = &self.next_file;
    }

    /// A new file of this shape without chunks, under the next id. Refused: Limit; NoMemory.
    pub fn add_file(&mut self, shape: Shape) -> Result<FileId, TableFault>
        ensures refusal { RefusedFor result (add_file_refusal self.old) }
        ensures file { IfOk result (λ file. file.0 ≡ self.old.next_file) }
        ensures ok { OnOk result (self.new ≡ with_file self.old shape) }
        ensures err { OnErr result (self.new ≡ self.old) }
    {
        let file = self.next_file;
        if file >= MAX_COUNTER {
            return Err(TableFault::Limit);
        }
        let none = HandleList::empty(self.alloc);
        let Ok(()) = insert_file(&mut self.files, &mut self.shapes, file, shape, none) else {
            return Err(TableFault::NoMemory);
        };
        self.next_file = file + 1;
        Ok(FileId(file))
    }

    /// A new chunk at a file's end, under the next handle. It has the file's shape, one owner and no version. Refused: NoFile; Limit; NoMemory.
    pub fn add_chunk(&mut self, file: FileId) -> Result<Handle, TableFault>
        ensures refusal { RefusedFor result (add_chunk_refusal self.old file.0) }
        ensures handle { IfOk result (λ handle. handle.0 ≡ self.old.next_handle) }
        ensures ok { OnOk result (self.new ≡ with_chunk self.old file.0) }
        ensures err { OnErr result (self.new ≡ self.old) }
    {
        if self.files.get(file.0).is_none() {
            return Err(TableFault::NoFile);
        }
        let handle = self.next_handle;
        if handle >= MAX_COUNTER || self.owners >= MAX_COUNTER {
            return Err(TableFault::Limit);
        }
        let chunk = Chunk::new(self.alloc, self.shape(file), Version(0), 1);
        let Ok(()) = self.chunks.insert(handle, chunk) else {
            return Err(TableFault::NoMemory);
        };
        let Ok(()) = push_at(&mut self.files, file.0, handle) else {
            self.chunks.remove(handle);
            return Err(TableFault::NoMemory);
        };
        self.next_handle = handle + 1;
        self.owners += 1;
        Ok(Handle(handle))
    }

    /// Issues the chunk's next version number, which is one more than the last. Refused: NoChunk; Limit. Takes no memory.
    pub fn issue(&mut self, handle: Handle) -> Result<Version, TableFault>
        ensures refusal { RefusedExactly result (issue_refusal self.old handle.0) }
        ensures version { IfOk result (λ version. version.0 ≡ version_after (chunk_of self.old.table handle.0)) }
        ensures ok { OnOk result (self.new ≡ with_row_changed self.old handle.0 (row_issued (version_after (chunk_of self.old.table handle.0)))) }
        ensures err { OnErr result (self.new ≡ self.old) }
    {
        let Some(chunk) = self.chunks.get(handle.0) else {
            return Err(TableFault::NoChunk);
        };
        let Version(issued) = chunk.issued();
        if issued >= MAX_COUNTER {
            return Err(TableFault::Limit);
        }
        let version = Version(issued + 1);
        issue_at(&mut self.chunks, handle.0, version);
        Ok(version)
    }

    /// Grants the version that was issued last to a primary and its members. The lease's end is 0 until it is set.
    /// Refused: NoChunk; NotIssued. Takes no memory.
    pub fn grant(
        &mut self,
        handle: Handle,
        version: Version,
        primary: ServerId,
        members: ServerList,
    ) -> Result<(), TableFault>
        ensures refusal { RefusedExactly result (grant_refusal self.old handle.0 version.0) }
        ensures ok { OnOk result (self.new ≡ with_row_changed self.old handle.0 (row_granted version.0 primary.0 members)) }
        ensures err { OnErr result (self.new ≡ self.old) }
    {
        let Some(chunk) = self.chunks.get(handle.0) else {
            return Err(TableFault::NoChunk);
        };
        if chunk.issued() != version || chunk.granted() >= version {
            return Err(TableFault::NotIssued);
        }
        grant_at(&mut self.chunks, handle.0, version, primary, members);
        Ok(())
    }

    /// Gives a chunk these versions and the servers of its last lease, as a checkpoint has them.
    /// Refused: NoChunk; NotIssued (the granted version is past the issued one); Limit. Takes no memory.
    pub fn put_row(
        &mut self,
        handle: Handle,
        granted: Version,
        issued: Version,
        primary: ServerId,
        members: ServerList,
    ) -> Result<(), TableFault>
        ensures refusal { RefusedExactly result (put_row_refusal self.old handle.0 granted.0 issued.0) }
        ensures ok { OnOk result (self.new ≡ with_row_changed self.old handle.0 (row_put granted.0 issued.0 primary.0 members)) }
        ensures err { OnErr result (self.new ≡ self.old) }
    {
        if self.chunks.get(handle.0).is_none() {
            return Err(TableFault::NoChunk);
        }
        if issued < granted {
            return Err(TableFault::NotIssued);
        }
        if issued.0 > MAX_COUNTER {
            return Err(TableFault::Limit);
        }
        put_at(
            &mut self.chunks,
            handle.0,
            granted,
            issued,
            primary,
            members,
        );
        Ok(())
    }

    /// Sets the id that the next file takes and the handle that the next chunk takes, as a checkpoint has them.
    /// Refused: Limit, where one is past [`MAX_COUNTER`] or less than before. Takes no memory.
    pub fn put_counters(&mut self, next_file: FileId, next_handle: Handle) -> Result<(), TableFault>
        ensures refusal { RefusedExactly result (counters_refusal self.old next_file.0 next_handle.0) }
        ensures ok { OnOk result (self.new ≡ with_counters self.old next_file.0 next_handle.0) }
        ensures err { OnErr result (self.new ≡ self.old) }
    {
        if next_file.0 < self.next_file
            || next_file.0 > MAX_COUNTER
            || next_handle.0 < self.next_handle
            || next_handle.0 > MAX_COUNTER
        {
            return Err(TableFault::Limit);
        }
        self.next_file = next_file.0;
        self.next_handle = next_handle.0;
        Ok(())
    }

    /// The table with a file of this shape and list, as a checkpoint has it: each chunk of the list gets one owner more, and is new where the
    /// table doesn't have it. Id and handles are below the counters. A table that refuses is dropped.
    /// Refused: Exists; NotGiven; Limit; NoMemory.
    pub fn put_file(
        self,
        file: FileId,
        shape: Shape,
        handles: HandleList,
    ) -> Result<Table, TableFault>
        ensures refusal { RefusedFor result (put_file_refusal self file.0 handles) }
        ensures ok { IfOk result (λ table. table ≡ with_put_file self file.0 shape handles) }
    {
        let Table {
            alloc,
            mut files,
            mut shapes,
            mut chunks,
            next_file,
            next_handle,
            owners,
        } = self;
        if files.get(file.0).is_some() {
            return Err(TableFault::Exists);
        }
        if !is_given(next_file, file.0) || !all_given(next_handle, handles.as_slice()) {
            return Err(TableFault::NotGiven);
        }
        let count = handles.len() as u64;
        if count > MAX_COUNTER - owners {
            return Err(TableFault::Limit);
        }
        let Ok(()) = own_each(alloc, shape, &mut chunks, handles.as_slice()) else {
            return Err(TableFault::NoMemory);
        };
        let Ok(()) = insert_file(&mut files, &mut shapes, file.0, shape, handles) else {
            return Err(TableFault::NoMemory);
        };
        Ok(Table {
            alloc,
            files,
            shapes,
            chunks,
            next_file,
            next_handle,
            owners: owners + count,
        })
    }

    /// Sets the moment at which a chunk's lease ends; 0 ends it. Nothing changes where there is no such chunk. Takes no memory.
    pub fn set_end(&mut self, handle: Handle, moment: Moment)
        ensures { self.new ≡ with_row_changed self.old handle.0 (row_ended moment.0) }
    {
        end_at(&mut self.chunks, handle.0, moment);
    }

    /// Gives a file the usual shape where its own isn't known; its chunks keep theirs. Takes no memory.
    pub fn know_shape(&mut self, file: FileId, usual: Shape)
        ensures { self.new ≡ with_known_shape self.old file.0 usual }
    {
        know_at(&mut self.shapes, file.0, usual);
    }

    /// What a restart makes of a chunk: the lease of one that was granted ends at this moment, and it has the usual shape where its
    /// own isn't known. Nothing changes where there is no such chunk. Takes no memory.
    pub fn restart_chunk(&mut self, handle: Handle, until: Moment, usual: Shape)
        ensures { self.new ≡ with_row_changed self.old handle.0 (row_restarted until.0 usual) }
    {
        restart_at(&mut self.chunks, handle.0, until, usual);
    }

    /// A new file, under the next id, of the same shape and the same chunks, each of which gets one owner more. Refused: NoFile; Limit; NoMemory.
    pub fn share(&mut self, file: FileId) -> Result<FileId, TableFault>
        ensures refusal { RefusedFor result (share_refusal self.old file.0) }
        ensures file { IfOk result (λ file. file.0 ≡ self.old.next_file) }
        ensures ok { OnOk result (self.new ≡ with_shared self.old file.0) }
        ensures err { OnErr result (self.new ≡ self.old) }
    {
        let Some(handles) = self.files.get(file.0) else {
            return Err(TableFault::NoFile);
        };
        let copy = self.next_file;
        let count = handles.len() as u64;
        if copy >= MAX_COUNTER || count > MAX_COUNTER - self.owners {
            return Err(TableFault::Limit);
        }
        let Ok(list) = handles.copy(self.alloc) else {
            return Err(TableFault::NoMemory);
        };
        let shape = self.shape(file);
        let Ok(()) = insert_file(&mut self.files, &mut self.shapes, copy, shape, list) else {
            return Err(TableFault::NoMemory);
        };
        share_file(&self.files, &mut self.chunks, copy);
        self.next_file = copy + 1;
        self.owners += count;
        Ok(FileId(copy))
    }

    /// Puts a chunk without owner in the place of a file's chunk, which loses an owner and goes where that was its last.
    /// Refused: NoFile; NoIndex; NoChunk; Owned (the new chunk is a file's). Takes no memory.
    pub fn swap(&mut self, file: FileId, index: usize, copy: Handle) -> Result<(), TableFault>
        ensures refusal { RefusedExactly result (swap_refusal self.old file.0 index copy.0) }
        ensures ok { OnOk result (self.new ≡ with_swapped self.old file.0 index copy.0) }
        ensures err { OnErr result (self.new ≡ self.old) }
    {
        let Some(handles) = self.files.get(file.0) else {
            return Err(TableFault::NoFile);
        };
        let handles = handles.as_slice();
        if index >= handles.len() {
            return Err(TableFault::NoIndex);
        }
        let shared = handles[index];
        let Some(chunk) = self.chunks.get(copy.0) else {
            return Err(TableFault::NoChunk);
        };
        if chunk.references() != 0 {
            return Err(TableFault::Owned);
        }
        share_at(&mut self.chunks, copy.0);
        leave_at(&mut self.chunks, shared);
        set_at(self.alloc, &mut self.files, file.0, index, copy.0);
        Ok(())
    }

    /// Takes a file out. Each of its chunks loses an owner, and goes where that was its last. Refused: NoFile. Takes no memory.
    #[tactic(auto, using(crate::proofs::Shaped::none_dropped))]
    pub fn drop_file(&mut self, file: FileId) -> Result<(), TableFault>
        ensures refusal { RefusedExactly result (drop_refusal self.old file.0) }
        ensures ok { OnOk result (self.new ≡ without_file self.old file.0) }
        ensures err { OnErr result (self.new ≡ self.old) }
        ensures absent { OnErr result (without_file self.old file.0 ≡ self.old) }
    {
        let Some(handles) = self.files.remove(file.0) else {
            return Err(TableFault::NoFile);
        };
        self.shapes.remove(file.0);
        leave_each(&mut self.chunks, handles.as_slice());
        self.owners -= handles.len() as u64;
        Ok(())
    }

    /// A new chunk without owner, under the next handle, for a copy of a chunk, whose shape it has. Its first version number is issued: one more than
    /// the last that was issued for that chunk. Refused: NoChunk; Limit; NoMemory.
    pub fn start_copy(&mut self, source: Handle) -> Result<Handle, TableFault>
        ensures refusal { RefusedFor result (start_copy_refusal self.old source.0) }
        ensures handle { IfOk result (λ handle. handle.0 ≡ self.old.next_handle) }
        ensures ok { OnOk result (self.new ≡ with_copy self.old source.0 (version_after (chunk_of self.old.table source.0))) }
        ensures err { OnErr result (self.new ≡ self.old) }
    {
        let Some(chunk) = self.chunks.get(source.0) else {
            return Err(TableFault::NoChunk);
        };
        let Version(issued) = chunk.issued();
        if issued >= MAX_COUNTER || self.next_handle >= MAX_COUNTER {
            return Err(TableFault::Limit);
        }
        let shape = chunk.shape();
        let Ok(copy) = self.add_copy(source, shape, Version(issued + 1)) else {
            return Err(TableFault::NoMemory);
        };
        Ok(copy)
    }

    // A new chunk without owner, under the next handle, of its source's shape, of which that version number is the last that was issued.
    pub(crate) fn add_copy(
        &mut self,
        source: Handle,
        shape: Shape,
        issued: Version,
    ) -> Result<Handle, NoMemory>
        requires shape { shape ≡ shape_in (chunk_of self.old.table source.0) }
        requires handle { self.old.next_handle < counter_limit }
        requires version { issued.0 ≤ counter_limit }
        ensures handle { IfOk result (λ handle. handle.0 ≡ self.old.next_handle) }
        ensures ok { OnOk result (self.new ≡ with_copy self.old source.0 issued.0) }
        ensures err { OnErr result (self.new ≡ self.old) }
    {
        let handle = self.next_handle;
        let copy = Chunk::new(self.alloc, shape, issued, 0);
        let Ok(()) = self.chunks.insert(handle, copy) else {
            return Err(NoMemory);
        };
        self.next_handle = handle + 1;
        Ok(Handle(handle))
    }

    /// Takes out a chunk without owner. Refused: NoChunk; Owned. Takes no memory.
    pub fn give_up_copy(&mut self, copy: Handle) -> Result<(), TableFault>
        ensures refusal { RefusedExactly result (give_up_copy_refusal self.old copy.0) }
        ensures ok { OnOk result (self.new ≡ without_copy self.old copy.0) }
        ensures err { OnErr result (self.new ≡ self.old) }
    {
        let Some(chunk) = self.chunks.get(copy.0) else {
            return Err(TableFault::NoChunk);
        };
        if chunk.references() != 0 {
            return Err(TableFault::Owned);
        }
        self.chunks.remove(copy.0);
        Ok(())
    }
}

// Whether a number was given out.
fn is_given(next: u64, number: u64) -> bool
    ensures { result ≡ is_given next number }
{
    number >= 1 && number < next
}

fn all_given(next: u64, numbers: &[u64]) -> bool
    ensures { result ≡ list_all (is_given next) numbers.now }
{
    numbers.iter().all(|number| is_given(next, *number))
}
