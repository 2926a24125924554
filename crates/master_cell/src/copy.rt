//! Copies of single files' lists of chunks.

ghost use Rattle.std.specs.Prelude.{◌≡◌, IfOk};
ghost use Rattle.master_cell.specs.Copies.{copy_of, copies_of};

use chunk_table::table::Table;
use gfs_types::ids::FileId;
use gfs_types::lists::HandleList;
use gfs_types::no_memory::NoMemory;
use std::alloc::Global;

/// The handles of a file's chunks, in the order of their index; none where there is no such file.
#[derive(Drop)]
pub struct FileCopy {
    pub(crate) file: FileId,
    pub(crate) handles: Option<HandleList>,
}

/// The lists of these files in a table, copied, in this order.
pub fn copies_of(alloc: Global, table: &Table, files: &[u64]) -> Result<Vec<FileCopy>, NoMemory>
    ensures { IfOk result (λ copies. copies.items ≡ copies_of table.now.table files.now) }
{
    let mut copies = Vec::new(alloc);
    for file in files {
        copies.push(copy_of(alloc, table, FileId(*file))?)?;
    }
    Ok(copies)
}

fn copy_of(alloc: Global, table: &Table, file: FileId) -> Result<FileCopy, NoMemory>
    ensures { IfOk result (λ c. c ≡ copy_of table.now.table file.0) }
{
    let handles = match table.file(file) {
        None => None,
        Some(handles) => Some(handles.copy(alloc)?),
    };
    Ok(FileCopy { file, handles })
}
