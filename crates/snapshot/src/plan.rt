//! What a snapshot is about.

ghost use Rattle.std.specs.Prelude.{◌≡◌, ◌++◌, ◌∷◌, [], IfOk, OnOk, IsErrOf, IsTrue, IsFalse};
ghost use Rattle.gfs_types.specs.declared.path.PathFault.TheVariants.{BadPath};
ghost use Rattle.relaxed_file.specs.Names.{copied_entries};
ghost use Rattle.snapshot.specs.Copies.{snapshot_of, files_of, chunks_of, node_chunks, are_paths};

use crate::copied::copied_names;
use crate::rising::rising;
use chunk_table::table::Table;
use gfs_types::lists::Text;
use gfs_types::no_memory::NoMemory;
use gfs_types::path::{Path, PathFault};
use namespace::name_kind::NameKind;
use namespace::node::{NameNode, Namespace};
use std::alloc::{Allocator, Global};
use std::marker::Model;

/// A snapshot: the names that it adds, the files that it copies, and their chunks. Nothing says that these are still so later on:
/// [`crate::commit::commit`] looks at the chunks anew.
#[derive(Drop)]
pub struct SnapshotPlan {
    pub(crate) copies: Vec<(Path, NameNode)>,
    files: Vec<u64>,
    chunks: Vec<u64>,
}

impl Model for SnapshotPlan {
    ghost use Rattle.snapshot.specs.Copies.{SnapshotState};

    ghost Value = { SnapshotState };

    ghost view = { λ p. record { copies = p.copies.items; files = p.files.items; chunks = p.chunks.items } };
}

impl SnapshotPlan {
    /// The names that are added, in the order of their paths, each file still under the id that it is copied from.
    pub fn copies(&self) -> &[(Path, NameNode)]
        ensures { result.now ≡ self.now.copies }
    {
        self.copies.as_slice()
    }

    /// The ids of the files that are copied, in the order of their paths.
    pub fn files(&self) -> &[u64]
        ensures { result.now ≡ self.now.files }
    {
        self.files.as_slice()
    }

    /// The handles of their chunks, in rising number, each once.
    pub fn chunks(&self) -> &[u64]
        ensures { result.now ≡ self.now.chunks }
    {
        self.chunks.as_slice()
    }
}

/// What a snapshot of `src` at `dst` is about: all that stands at `src` and below it. BadPath: the name of a copy would be no path.
/// Goes over all names.
pub fn plan<A: Allocator + Clone>(
    alloc: Global,
    names: &Namespace<A>,
    table: &Table,
    src: &Path,
    dst: &Path,
) -> Result<SnapshotPlan, PathFault>
    ensures plan { IfOk result (λ p. p ≡ snapshot_of names.now table.now.table src.now dst.now) }
    ensures paths { OnOk result (IsTrue (are_paths (copied_entries names.now src.now dst.now))) }
    ensures bad { IsErrOf result BadPath → IsFalse (are_paths (copied_entries names.now src.now dst.now)) }
{
    let texts = copied_names(alloc, names, src, dst)?;
    let copies = with_paths(alloc, texts)?;
    let files = files_of(alloc, &copies)?;
    let found = chunks_of(alloc, table, &copies)?;
    let chunks = rising(alloc, &found)?;
    Ok(SnapshotPlan {
        copies,
        files,
        chunks,
    })
}

// The same names, as paths.
fn with_paths(
    alloc: Global,
    names: Vec<(Text, NameNode)>,
) -> Result<Vec<(Path, NameNode)>, PathFault>
    ensures copies { IfOk result (λ copies. copies.items ≡ names.items) }
    ensures paths { OnOk result (IsTrue (are_paths names.items)) }
    ensures bad { IsErrOf result BadPath → IsFalse (are_paths names.items) }
{
    let mut copies = Vec::new(alloc);
    for name in names {
        let (text, node) = name;
        let path = Path::parse(alloc, text.as_str())?;
        push(&mut copies, path, node)?;
    }
    Ok(copies)
}

fn push(copies: &mut Vec<(Path, NameNode)>, path: Path, node: NameNode) -> Result<(), NoMemory>
    ensures { OnOk result (copies.new.items ≡ copies.old.items ++ (path, node) ∷ []) }
{
    copies.push((path, node))?;
    Ok(())
}

fn files_of(alloc: Global, copies: &[(Path, NameNode)]) -> Result<Vec<u64>, NoMemory>
    ensures { IfOk result (λ files. files.items ≡ files_of copies.now) }
{
    let mut files = Vec::new(alloc);
    for copy in copies {
        if let NameKind::File(id) = copy.1.kind() {
            files.push(id.0)?;
        }
    }
    Ok(files)
}

fn chunks_of(
    alloc: Global,
    table: &Table,
    copies: &[(Path, NameNode)],
) -> Result<Vec<u64>, NoMemory>
    ensures { IfOk result (λ handles. handles.items ≡ chunks_of table.now.table copies.now) }
{
    let mut handles = Vec::new(alloc);
    for copy in copies {
        push_chunks(&mut handles, table, &copy.1)?;
    }
    Ok(handles)
}

// Adds the handles of a file's chunks.
fn push_chunks(handles: &mut Vec<u64>, table: &Table, node: &NameNode) -> Result<(), NoMemory>
    ensures { OnOk result (handles.new.items ≡ handles.old.items ++ node_chunks table.now.table node.now) }
{
    let NameKind::File(id) = node.kind() else {
        return Ok(());
    };
    let Some(list) = table.file(id) else {
        return Ok(());
    };
    handles.extend_from_slice(list.as_slice())?;
    Ok(())
}
