//! The copies of shared chunks that are under way (section 3.4).

ghost use Rattle.std.specs.Prelude.{◌≡◌, ◌∷◌, [], IfOk, IfErr, OnOk, OnErr, IsErrOf, IsFalse, IsTrue};
ghost use Rattle.std.specs.Option.{option_map};
ghost use Rattle.std.specs.FinMap as finite;
ghost use Rattle.chunk_table.specs.ChunkTable.{chunk_of};
ghost use Rattle.protocol.specs.Logged.{copies_given_up, copies_for_file, all_copies_given_up};
ghost use Rattle.protocol.specs.MasterSnapshots.{copies_for_files};
ghost use Rattle.protocol.specs.MasterVersions.{copy_for, is_copied};
ghost use Rattle.protocol.specs.Tables.{has_number};
ghost use Rattle.master_state.specs.Follows.{is_unowned, are_unowned};
ghost use Rattle.master_state.specs.declared.fault.ReplayFault.TheVariants.{Damaged};

use crate::fault::ReplayFault;
use crate::state::State;
use gfs_types::ids::{FileId, Handle};
use gfs_types::no_memory::NoMemory;
use std::alloc::Allocator;

impl<A: Allocator + Clone> State<A> {
    /// The new handles of all copies, in rising number.
    pub fn copied_handles(&self) -> Result<Vec<u64>, NoMemory>
        ensures { IfOk result (λ v. v.items ≡ finite.keys self.now.copies) }
    {
        let mut found = Vec::new(self.alloc);
        for (handle, _) in self.copies.iter() {
            found.push(*handle)?;
        }
        Ok(found)
    }

    /// The new handles of the copies for a file, in rising number.
    pub fn copies_for_file(&self, file: FileId) -> Result<Vec<u64>, NoMemory>
        ensures { IfOk result (λ v. v.items ≡ copies_for_file self.now file.0) }
    {
        let mut found = Vec::new(self.alloc);
        for (handle, copy) in self.copies.iter() {
            if copy.file() == file {
                found.push(*handle)?;
            }
        }
        Ok(found)
    }

    /// The new handles of the copies for these files, in rising number.
    pub fn copies_for_files(&self, files: &[u64]) -> Result<Vec<u64>, NoMemory>
        ensures { IfOk result (λ v. v.items ≡ copies_for_files self.now files.now) }
    {
        let mut found = Vec::new(self.alloc);
        for (handle, copy) in self.copies.iter() {
            if has_number(files, copy.file().0) {
                found.push(*handle)?;
            }
        }
        Ok(found)
    }

    /// The new handle of the copy for a file's chunk of this index. Takes no memory.
    pub fn copy_for(&self, file: FileId, index: u64) -> Option<Handle>
        ensures { option_map (λ h. h.0) result ≡ copy_for self.now file.0 index }
    {
        for (handle, copy) in self.copies.iter() {
            if copy.file() == file && copy.index() == index {
                return Some(Handle(*handle));
            }
        }
        None
    }

    /// Whether a chunk is copied now. Takes no memory.
    pub fn is_copied(&self, handle: Handle) -> bool
        ensures { result ≡ is_copied self.now handle.0 }
    {
        for (_, copy) in self.copies.iter() {
            if copy.source() == handle {
                return true;
            }
        }
        false
    }

    /// These copies are given up, and their chunks go. Damaged: a file owns one of the chunks. Takes no memory.
    pub fn give_up_copies(&mut self, handles: &[u64]) -> Result<(), ReplayFault>
        ensures ok { OnOk result (self.new ≡ copies_given_up self.old handles.now) }
        ensures unowned { OnOk result (IsTrue (are_unowned self.old.table handles.now)) }
        ensures damaged { IsErrOf result Damaged → IsFalse (are_unowned self.old.table handles.now) }
        ensures cause { IfErr result (λ e. e ≡ Damaged) }
    {
        for handle in handles {
            self.give_up_copy(Handle(*handle))?;
        }
        Ok(())
    }

    // One copy is given up.
    fn give_up_copy(&mut self, handle: Handle) -> Result<(), ReplayFault>
        ensures ok { OnOk result (self.new ≡ copies_given_up self.old (handle.0 ∷ [])) }
        ensures unowned { OnOk result (IsTrue (is_unowned (chunk_of self.old.table handle.0))) }
        ensures damaged { OnErr result (IsFalse (is_unowned (chunk_of self.old.table handle.0))) }
        ensures cause { IfErr result (λ e. e ≡ Damaged) }
    {
        self.remove_unowned(handle)?;
        self.copies.remove(handle.0);
        Ok(())
    }

    // A chunk goes that no file owns.
    #[tactic(auto, using(chunk_table::proofs::Shaped::absent))]
    fn remove_unowned(&mut self, handle: Handle) -> Result<(), ReplayFault>
        ensures ok { OnOk result (self.new ≡ record self.old { table = record self.old.table { chunks = finite.remove self.old.table.chunks handle.0 } }) }
        ensures unowned { OnOk result (IsTrue (is_unowned (chunk_of self.old.table handle.0))) }
        ensures damaged { OnErr result (IsFalse (is_unowned (chunk_of self.old.table handle.0))) }
        ensures cause { IfErr result (λ e. e ≡ Damaged) }
    {
        if self.table.chunk(handle).is_none() {
            return Ok(());
        }
        match self.table.give_up_copy(handle) {
            Ok(()) => Ok(()),
            Err(_) => Err(ReplayFault::Damaged),
        }
    }

    /// Each copy under way is given up. Damaged: a file owns the chunk of one.
    pub fn give_up_all_copies(&mut self) -> Result<(), ReplayFault>
        ensures ok { OnOk result (self.new ≡ all_copies_given_up self.old) }
        ensures unowned { OnOk result (IsTrue (are_unowned self.old.table (finite.keys self.old.copies))) }
        ensures damaged { IsErrOf result Damaged → IsFalse (are_unowned self.old.table (finite.keys self.old.copies)) }
    {
        let handles = self.copied_handles()?;
        self.give_up_copies(&handles)
    }
}

fn has_number(numbers: &[u64], number: u64) -> bool
    ensures { result ≡ has_number numbers.now number }
{
    numbers.iter().any(|other| *other == number)
}
