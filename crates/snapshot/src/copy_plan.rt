//! When a chunk is copied before it is written.

ghost use Rattle.std.specs.Prelude.{◌≡◌};
ghost use Rattle.snapshot.specs.CopyPlans.{copy_of_chunk};

use chunk_table::table::Table;
use gfs_types::ids::{FileId, Handle, Version};

/// The copy of a shared chunk: a file's chunk of this index gets the handle `copy`, whose first version is this one; the replicas of
/// `source` are copied.
#[derive(Clone, Copy, Debug, PartialEq, Eq)]
pub struct CopyPlan {
    pub file: FileId,
    pub index: u64,
    pub source: Handle,
    pub copy: Handle,
    pub version: Version,
}

/// The copy that a write to a file's chunk of that index needs first, where another file owns the chunk too: under the next handle,
/// with the version that follows the last that was issued. None: the file has no such chunk, or is its only owner. Takes no memory.
pub fn copy_plan(table: &Table, file: FileId, index: u64) -> Option<CopyPlan>
    ensures { result ≡ copy_of_chunk table.now file.0 index }
{
    table.is_sound();
    let Some(handles) = table.file(file) else {
        return None;
    };
    let Some(source) = handles.as_slice().get(index as usize) else {
        return None;
    };
    let source = Handle(*source);
    let Some(chunk) = table.chunk(source) else {
        return None;
    };
    if chunk.references() <= 1 {
        return None;
    }
    Some(CopyPlan {
        file,
        index,
        source,
        copy: table.next_handle(),
        version: Version(chunk.issued().0 + 1),
    })
}
