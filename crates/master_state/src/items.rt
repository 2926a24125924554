//! The replay of a checkpoint's counters and files (section 2.6.3).

ghost use Rattle.std.specs.Prelude.{◌≡◌, OnOk, IsErrOf, IsTrue, IsFalse};
ghost use Rattle.log_records.specs.declared.record.Record.TheVariants as log;
ghost use Rattle.chunk_table.specs.ChunkTable.{put_file};
ghost use Rattle.chunk_table.specs.Refusals.{put_file_refusal};
ghost use Rattle.std.specs.Prelude.{is_none};
ghost use Rattle.protocol.specs.Logged.{after_record};
ghost use Rattle.master_state.specs.Follows.{follows, table_of};
ghost use Rattle.master_state.specs.declared.fault.ReplayFault.TheVariants.{Damaged};

use crate::fault::ReplayFault;
use crate::names::path_of;
use crate::state::State;
use chunk_table::chunk::NO_SHAPE;
use chunk_table::fault::TableFault;
use chunk_table::table::Table;
use gfs_types::ids::{FileId, Handle};
use gfs_types::lists::{HandleList, Text};
use gfs_types::shape::Shape;
use namespace::node::NameNode;
use std::alloc::Allocator;
use std::mem;

impl<A: Allocator + Clone> State<A> {
    /// The replay of a Counters. Takes no memory.
    pub fn put_counters(
        &mut self,
        next_file: FileId,
        next_handle: Handle,
        epoch: u64,
    ) -> Result<(), ReplayFault>
        ensures ok { OnOk result (self.new ≡ after_record self.old (log.Counters next_file next_handle epoch)) }
        ensures follows { OnOk result (IsTrue (follows self.old (log.Counters next_file next_handle epoch))) }
        ensures damaged { IsErrOf result Damaged → IsFalse (follows self.old (log.Counters next_file next_handle epoch)) }
    {
        match self.table.put_counters(next_file, next_handle) {
            Ok(()) => {}
            Err(_) => return Err(ReplayFault::Damaged),
        }
        self.epoch = epoch;
        Ok(())
    }

    /// The replay of a FileItem.
    pub fn put_file_item(
        &mut self,
        path: &Text,
        file: FileId,
        shape: Option<Shape>,
        handles: &HandleList,
    ) -> Result<(), ReplayFault>
        ensures ok { OnOk result (self.new ≡ after_record self.old (log.FileItem path.now file shape handles.now)) }
        ensures follows { OnOk result (IsTrue (follows self.old (log.FileItem path.now file shape handles.now))) }
        ensures damaged { IsErrOf result Damaged → IsFalse (follows self.old (log.FileItem path.now file shape handles.now)) }
    {
        let path = path_of(self.alloc, path)?;
        let handles = handles.copy(self.alloc)?;
        self.put_file(file, NO_SHAPE.or(shape), handles)?;
        self.put_name(&path, NameNode::file(file))?;
        Ok(())
    }

    fn put_file(
        &mut self,
        file: FileId,
        shape: Shape,
        handles: HandleList,
    ) -> Result<(), ReplayFault>
        ensures ok { OnOk result (self.new ≡ record self.old { table = put_file self.old.table file.0 shape handles }) }
        ensures follows { OnOk result (IsTrue (is_none (put_file_refusal (table_of self.old) file.0 handles))) }
        ensures damaged { IsErrOf result Damaged → IsFalse (is_none (put_file_refusal (table_of self.old) file.0 handles)) }
    {
        let table = mem::replace(&mut self.table, Table::new(self.alloc));
        match table.put_file(file, shape, handles) {
            Ok(table) => {
                self.table = table;
                Ok(())
            }
            Err(TableFault::NoMemory) => Err(ReplayFault::NoMemory),
            Err(_) => Err(ReplayFault::Damaged),
        }
    }
}
