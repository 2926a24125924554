//! The chunks of all files, as they are shown.

ghost use Rattle.std.specs.Prelude.{◌≡◌, [], IfOk, OnOk, OnErr};
ghost use Rattle.std.specs.FinMap as map;
ghost use Rattle.std.specs.Option.{option_copied};
ghost use Rattle.chunk_table.specs.ChunkTable.{file_of};
ghost use Rattle.master_cell.specs.Copies.{with_copy_of, with_list, with_lists};
ghost use Rattle.master_cell.specs.Shown.{shown_in};

use crate::copy::FileCopy;
use chunk_table::table::Table;
use gfs_types::ids::FileId;
use gfs_types::lists::HandleList;
use gfs_types::no_memory::NoMemory;
use ordered_map::number_map::NumberMap;
use std::alloc::Global;

/// The handles of each file's chunks, in the order of their index.
#[derive(Drop)]
pub struct ShownFiles {
    pub(crate) files: NumberMap<HandleList>,
    // lists that are still to be put in the place of those above; of two for one file the first counts
    pub(crate) late: Vec<FileCopy>,
}

impl ShownFiles {
    /// No files. Takes no memory.
    pub fn new(alloc: Global) -> ShownFiles
        ensures { shown_in result ≡ map.empty }
    {
        ShownFiles {
            files: NumberMap::new(alloc),
            late: Vec::new(alloc),
        }
    }

    /// A file's list.
    pub fn get(&self, file: FileId) -> Option<&HandleList>
        ensures { option_copied result ≡ map.get (shown_in self.now) file.0 }
    {
        for copy in &self.late {
            if copy.file == file {
                return copy.handles.as_ref();
            }
        }
        self.files.get(file.0)
    }

    /// Makes ready for `put`, at most once for each list that was put. Nothing that is shown changes, even for want of memory.
    pub fn settle(&mut self, alloc: Global) -> Result<(), NoMemory>
        ensures shown { shown_in self.new ≡ shown_in self.old }
        ensures settled { OnOk result (self.new.late.items ≡ []) }
    {
        for _ in 0..self.late.len() {
            let Some(copy) = self.late.last() else {
                return Ok(());
            };
            put_list(&mut self.files, alloc, copy)?;
            self.late.pop();
        }
        Ok(())
    }

    /// Shows these lists from now on. Takes no memory.
    pub fn put(&mut self, copies: Vec<FileCopy>)
        requires { self.old.late.items ≡ [] }
        ensures { shown_in self.new ≡ with_lists (shown_in self.old) copies.items }
    {
        self.late = copies;
    }
}

/// The files of a table, copied.
pub fn shown_of(alloc: Global, table: &Table) -> Result<ShownFiles, NoMemory>
    ensures { IfOk result (λ shown. shown_in shown ≡ table.now.table.files) }
{
    Ok(ShownFiles {
        files: files_of(alloc, table)?,
        late: Vec::new(alloc),
    })
}

// A list is put in its place. At an error nothing has changed.
fn put_list(
    files: &mut NumberMap<HandleList>,
    alloc: Global,
    copy: &FileCopy,
) -> Result<(), NoMemory>
    ensures ok { OnOk result (files.new ≡ with_list files.old copy.now) }
    ensures err { OnErr result (files.new ≡ files.old) }
{
    match &copy.handles {
        None => {
            files.remove(copy.file.0);
        }
        Some(handles) => {
            files.insert(copy.file.0, handles.copy(alloc)?)?;
        }
    }
    Ok(())
}

fn files_of(alloc: Global, table: &Table) -> Result<NumberMap<HandleList>, NoMemory>
    ensures { IfOk result (λ files. files ≡ table.now.table.files) }
{
    table.is_sound();
    let mut files = NumberMap::new(alloc);
    for number in 0..table.next_file().0 {
        copy_file(&mut files, alloc, table, FileId(number))?;
    }
    Ok(files)
}

// One file's copy, where there is such a file.
fn copy_file(
    files: &mut NumberMap<HandleList>,
    alloc: Global,
    table: &Table,
    file: FileId,
) -> Result<(), NoMemory>
    ensures { OnOk result (files.new ≡ with_copy_of files.old file.0 (file_of table.now.table file.0)) }
{
    if let Some(handles) = table.file(file) {
        files.insert(file.0, handles.copy(alloc)?)?;
    }
    Ok(())
}
