//! What a master shows: the file of a name, and the handle of a file's chunk.

ghost use Rattle.std.specs.Prelude.{◌≡◌, option_map, option_and_then};
ghost use Rattle.std.specs.FinMap as table;
ghost use Rattle.protocol.specs.Sending.{file_id, handle_of};
ghost use Rattle.protocol.specs.Tables.{element_at};
ghost use Rattle.cell_world.specs.FileNames.{file_in};
ghost use Rattle.master_cell.specs.Shown.{shown_in};

use gfs_types::ids::{FileId, Handle};
use gfs_types::path::Path;
use master_cell::logged_master::LoggedMaster;
use master_cell::shown::ShownFiles;
use namespace::name_kind::NameKind;
use operation_log::log::OperationLog;
use std::alloc::Allocator;

/// The file that a path names, while the master is up.
#[tactic(auto, using(crate::proofs::Files::none_down, crate::proofs::Files::no_name, crate::proofs::Files::a_file, crate::proofs::Files::a_directory))]
pub(crate) fn file_of<L: OperationLog, A: Allocator + Clone>(
    master: &LoggedMaster<L, A>,
    path: &Path,
) -> Option<FileId>
    ensures { result ≡ option_map file_id (file_in master.now.state path.now) }
{
    let Some(state) = master.state() else {
        return None;
    };
    let Some(node) = state.node(path) else {
        return None;
    };
    match node.kind() {
        NameKind::File(id) => Some(id),
        NameKind::Dir => None,
    }
}

/// The handle of a file's chunk of this index, from 0, as it is shown.
#[tactic(auto, using(crate::proofs::Files::no_file, crate::proofs::Files::no_chunk, crate::proofs::Files::a_chunk))]
pub(crate) fn handle_in(files: &ShownFiles, file: FileId, index: u64) -> Option<Handle>
    ensures { result ≡ option_map handle_of (option_and_then (λ handles. element_at handles index) (table.get (shown_in files.now) file.0)) }
{
    let Some(handles) = files.get(file) else {
        return None;
    };
    let Some(handle) = handles.as_slice().get(index as usize) else {
        return None;
    };
    Some(Handle(*handle))
}
