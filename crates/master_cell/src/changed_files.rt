//! The files that a step changes, and copies of their chunks' lists.

ghost use Rattle.std.specs.Prelude.{◌≡◌, ◌++◌, ◌-◌, IfOk, OnOk};
ghost use Rattle.std.specs.FinMap as map;
ghost use Rattle.chunk_table.specs.Owners.{IsSound};
ghost use Rattle.master_cell.specs.ChangedFiles.{file_changed, file_changed_by, files_changed};
ghost use Rattle.master_plan.specs.Changes.{change_of, changes_of};
ghost use Rattle.master_state.specs.Follows.{table_of};
ghost use Rattle.master_cell.specs.Copies.{copies_of};
ghost use Rattle.master_cell.specs.Files.{AreFilesOf, AreFilesOfCopies, with_file_of, numbers_from, files_after};

use crate::copy::{FileCopy, copies_of};
use gfs_types::ids::Handle;
use gfs_types::no_memory::NoMemory;
use log_records::record::Record;
use master_plan::change::PlannedChange;
use master_state::state::State;
use ordered_map::number_map::NumberMap;
use std::alloc::{Allocator, Global};

/// What is noted of the files before a step, to tell after it which of them it changed.
#[derive(Drop)]
pub struct FilesBefore {
    pub next_file: u64,
    // the file of each copy under way, by the copy's handle
    pub copies: NumberMap<u64>,
}

impl FilesBefore {
    /// What is noted of the files of a state.
    pub fn of<A: Allocator + Clone>(
        alloc: Global,
        state: &State<A>,
    ) -> Result<FilesBefore, NoMemory>
        ensures { IfOk result (λ b. AreFilesOf state.now b.next_file b.copies) }
    {
        let table = state.table();
        table.is_sound();
        Ok(FilesBefore {
            next_file: table.next_file().0,
            copies: files_of_copies(alloc, state)?,
        })
    }

    /// Copies of the lists of the files that are new since, and of those that were changed since, as they are now.
    pub fn changed<A: Allocator + Clone>(
        &self,
        alloc: Global,
        state: &State<A>,
        changes: &[PlannedChange],
    ) -> Result<Vec<FileCopy>, NoMemory>
        ensures copies { IfOk result (λ copies. copies.items ≡ copies_of state.now.table (files_after self.now.next_file self.now.copies state.now.next_file (changes_of changes.now))) }
        ensures sound { IsSound (table_of state.now) }
    {
        let table = state.table();
        table.is_sound();
        let mut files = numbers(alloc, self.next_file, table.next_file().0)?;
        add_changed(&mut files, &self.copies, changes)?;
        copies_of(alloc, table, &files)
    }
}

// The file of each copy under way.
fn files_of_copies<A: Allocator + Clone>(
    alloc: Global,
    state: &State<A>,
) -> Result<NumberMap<u64>, NoMemory>
    ensures { IfOk result (λ files. AreFilesOfCopies state.now files) }
{
    let handles = state.copied_handles()?;
    let mut files = NumberMap::new(alloc);
    for handle in &handles {
        note_file(&mut files, state, Handle(*handle))?;
    }
    Ok(files)
}

fn note_file<A: Allocator + Clone>(
    files: &mut NumberMap<u64>,
    state: &State<A>,
    handle: Handle,
) -> Result<(), NoMemory>
    ensures { OnOk result (files.new ≡ with_file_of files.old handle.0 (map.get state.now.copies handle.0)) }
{
    if let Some(copy) = state.copy_under(handle) {
        files.insert(handle.0, copy.file().0)?;
    }
    Ok(())
}

// From the first number on, below the second.
fn numbers(alloc: Global, first: u64, end: u64) -> Result<Vec<u64>, NoMemory>
    ensures { IfOk result (λ v. v.items ≡ numbers_from first (end - first)) }
{
    let mut numbers = Vec::new(alloc);
    for number in first..end {
        numbers.push(number)?;
    }
    Ok(numbers)
}

// Adds the files of changes of the log.
fn add_changed(
    files: &mut Vec<u64>,
    copies: &NumberMap<u64>,
    changes: &[PlannedChange],
) -> Result<(), NoMemory>
    ensures { OnOk result (files.new.items ≡ files.old.items ++ files_changed copies.now (changes_of changes.now)) }
{
    for change in changes {
        if let Some(file) = file_changed_by(copies, change) {
            files.push(file)?;
        }
    }
    Ok(())
}

fn file_changed_by(copies: &NumberMap<u64>, change: &PlannedChange) -> Option<u64>
    ensures { result ≡ file_changed_by copies.now (change_of change.now) }
{
    match change {
        PlannedChange::Append(entry) => file_changed(copies, entry),
        PlannedChange::Checkpoint(_) => None,
    }
}

fn file_changed(copies: &NumberMap<u64>, entry: &Record) -> Option<u64>
    ensures { result ≡ file_changed copies.now entry.now }
{
    match entry {
        Record::Expired { file } => Some(file.0),
        Record::AddChunk { file, .. } => Some(file.0),
        Record::CopyStart { file, .. } => Some(file.0),
        Record::Grant { handle, .. } => copies.get(handle.0).copied(),
        _ => None,
    }
}
