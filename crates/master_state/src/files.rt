//! How files share chunks, and go (sections 3.4 and 4.4).

ghost use Rattle.std.specs.Prelude.{◌≡◌, ◌+◌, IfOk, OnOk, IsErrOf, IsTrue, IsFalse, is_none};
ghost use Rattle.chunk_table.specs.ChunkTable.{copy_file, drop_file};
ghost use Rattle.chunk_table.specs.Refusals.{share_refusal};
ghost use Rattle.master_state.specs.Follows.{table_of};
ghost use Rattle.master_state.specs.declared.fault.ReplayFault.TheVariants.{Damaged};

use crate::fault::ReplayFault;
use crate::state::State;
use chunk_table::fault::TableFault;
use gfs_types::ids::FileId;
use std::alloc::Allocator;

impl<A: Allocator + Clone> State<A> {
    /// A new file, under the next id, of the same chunks. Damaged: there is no such file, or a counter is at its limit.
    pub fn share_file(&mut self, file: FileId) -> Result<FileId, ReplayFault>
        ensures file { IfOk result (λ copy. copy.0 ≡ self.old.next_file) }
        ensures ok { OnOk result (self.new ≡ record self.old { table = copy_file self.old.table file.0 self.old.next_file; next_file = self.old.next_file + 1 }) }
        ensures follows { OnOk result (IsTrue (is_none (share_refusal (table_of self.old) file.0))) }
        ensures damaged { IsErrOf result Damaged → IsFalse (is_none (share_refusal (table_of self.old) file.0)) }
    {
        match self.table.share(file) {
            Ok(copy) => Ok(copy),
            Err(TableFault::NoMemory) => Err(ReplayFault::NoMemory),
            Err(_) => Err(ReplayFault::Damaged),
        }
    }

    /// A file goes, and each chunk that no other one owns. Nothing changes where there is no such file. Takes no memory.
    pub fn drop_file(&mut self, file: FileId)
        ensures { self.new ≡ record self.old { table = drop_file self.old.table file.0 } }
    {
        let _dropped = self.table.drop_file(file);
    }
}
