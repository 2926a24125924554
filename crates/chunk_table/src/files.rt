//! Changes of single files in the map by id.

ghost use Rattle.std.specs.Prelude.{◌≡◌, ℕ, ◌+◌, ◌≤◌, ◌∷◌, [], ◌++◌, ◌<◌, length, slice_set, unwrap_or, None, IsSome, OnOk, OnErr};
ghost use Rattle.std.specs.FinMap as map;
ghost use Rattle.gfs_types.specs.Counters.{counter_limit};
ghost use Rattle.chunk_table.specs.ChunkTable.{share_all, known_at};
ghost use Rattle.chunk_table.specs.Owners.{references_at};

use crate::chunk::{Chunk, known_shape};
use crate::chunks::share_each;
use gfs_types::lists::HandleList;
use gfs_types::no_memory::NoMemory;
use gfs_types::shape::Shape;
use ordered_map::number_map::NumberMap;
use std::alloc::Global;
use std::mem;

pub(crate) fn push_at(
    files: &mut NumberMap<HandleList>,
    file: u64,
    handle: u64,
) -> Result<(), NoMemory>
    requires { IsSome (map.get files.old file) }
    ensures ok { OnOk result (files.new ≡ map.insert files.old file (unwrap_or (map.get files.old file) [] ++ handle ∷ [])) }
    ensures err { OnErr result (files.new ≡ files.old) }
{
    match files.get_mut(file) {
        Some(handles) => handles.push(handle),
        None => Ok(()),
    }
}

// A new file with its shape and its list.
pub(crate) fn insert_file(
    files: &mut NumberMap<HandleList>,
    shapes: &mut NumberMap<Shape>,
    file: u64,
    shape: Shape,
    handles: HandleList,
) -> Result<(), NoMemory>
    requires { map.get shapes.old file ≡ None }
    ensures files { OnOk result (files.new ≡ map.insert files.old file handles) }
    ensures shapes { OnOk result (shapes.new ≡ map.insert shapes.old file shape) }
    ensures no_files { OnErr result (files.new ≡ files.old) }
    ensures no_shapes { OnErr result (shapes.new ≡ shapes.old) }
{
    shapes.insert(file, shape)?;
    match files.insert(file, handles) {
        Ok(()) => Ok(()),
        Err(_) => {
            shapes.remove(file);
            Err(NoMemory)
        }
    }
}

// A file's shape is known, where there is one. It takes no memory.
pub(crate) fn know_at(shapes: &mut NumberMap<Shape>, file: u64, usual: Shape)
    ensures { shapes.new ≡ known_at shapes.old file usual }
{
    if let Some(shape) = shapes.get_mut(file) {
        *shape = known_shape(usual, *shape);
    }
}

// Each chunk of a file gets one owner more.
pub(crate) fn share_file(files: &NumberMap<HandleList>, chunks: &mut NumberMap<Chunk>, file: u64)
    requires { (handle : ℕ) → references_at chunks.old handle + length (unwrap_or (map.get files.now file) []) ≤ counter_limit }
    ensures { chunks.new ≡ share_all chunks.old (unwrap_or (map.get files.now file) []) }
{
    if let Some(handles) = files.get(file) {
        share_each(chunks, handles.as_slice());
    }
}

pub(crate) fn set_at(
    alloc: Global,
    files: &mut NumberMap<HandleList>,
    file: u64,
    index: usize,
    handle: u64,
)
    requires some { IsSome (map.get files.old file) }
    requires within { index < length (unwrap_or (map.get files.old file) []) }
    ensures { files.new ≡ map.insert files.old file (slice_set (unwrap_or (map.get files.old file) []) index handle) }
{
    if let Some(handles) = files.get_mut(file) {
        set(alloc, handles, index, handle);
    }
}

fn set(alloc: Global, handles: &mut HandleList, index: usize, handle: u64)
    requires { index < length handles.old }
    ensures { handles.new ≡ slice_set handles.old index handle }
{
    let mut items = mem::replace(handles, HandleList::empty(alloc)).into_vec();
    items[index] = handle;
    *handles = HandleList::new(items);
}
