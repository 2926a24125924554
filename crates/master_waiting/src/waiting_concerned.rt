//! The files and chunks that waiting snapshots are about, and what of them stays known as records follow (section 3.4).

ghost use Rattle.std.specs.Prelude.{◌≡◌, ◌&&◌, not, true, List, IfOk, OnOk};
ghost use Rattle.std.specs.List.{list_any};
ghost use Rattle.std.specs.FinMap as map;
ghost use Rattle.protocol.specs.Master.{PendingSnapshot};
ghost use Rattle.master_waiting.specs.Concerned.{is_in, with_all, files_of_all, chunks_of_all, is_source, is_by_trash, is_for_one, moves, touches, followed};

use crate::waiting::Pending;
use crate::waiting_list::WaitingSnapshots;
use gfs_types::ids::Handle;
use gfs_types::no_memory::NoMemory;
use gfs_types::path::Path;
use log_records::record::Record;
use master_state::fault::ReplayFault;
use master_state::state::State;
use ordered_map::OrderedMap;
use path_trie::parts::is_at_or_below;
use std::alloc::Allocator;

/// Whether a number is in a set.
pub fn has(set: &OrderedMap<()>, number: u64) -> bool
    ensures { result ≡ is_in set.now number }
{
    set.get(number).is_some()
}

fn put_all(set: &mut OrderedMap<()>, numbers: &[u64]) -> Result<(), NoMemory>
    ensures { OnOk result (set.new ≡ with_all set.old numbers.now) }
{
    for number in numbers {
        set.insert(*number, ())?;
    }
    Ok(())
}

/// The files of these snapshots.
pub fn files_of_all<A: Allocator + Clone>(
    state: &State<A>,
    snapshots: &[Pending],
) -> Result<OrderedMap<()>, ReplayFault>
    ensures { IfOk result (λ set. set ≡ files_of_all state.now snapshots.now map.empty) }
{
    let mut set = OrderedMap::new(state.alloc());
    for snapshot in snapshots {
        let plan = state.plan_snapshot(snapshot.from(), snapshot.to())?;
        put_all(&mut set, plan.files())?;
    }
    Ok(set)
}

/// Their chunks.
pub fn chunks_of_all<A: Allocator + Clone>(
    state: &State<A>,
    snapshots: &[Pending],
) -> Result<OrderedMap<()>, ReplayFault>
    ensures { IfOk result (λ set. set ≡ chunks_of_all state.now snapshots.now map.empty) }
{
    let mut set = OrderedMap::new(state.alloc());
    for snapshot in snapshots {
        let plan = state.plan_snapshot(snapshot.from(), snapshot.to())?;
        put_all(&mut set, plan.chunks())?;
    }
    Ok(set)
}

/// Whether a record may change a name at a source or below it.
pub fn moves(waiting: &WaitingSnapshots, entry: &Record) -> Result<bool, NoMemory>
    ensures { IfOk result (λ b. b ≡ moves waiting.now entry.now) }
{
    match entry {
        Record::Mkdir { path, .. } | Record::Rmdir { path, .. } | Record::Create { path, .. } => {
            waiting.is_source(path.as_str())
        }
        Record::Delete { path, .. } => {
            Ok(waiting.is_source(path.as_str())? || waiting.are_by_trash()?)
        }
        Record::Rename { from, to, .. } => {
            Ok(waiting.is_source(from.as_str())? || waiting.is_source(to.as_str())?)
        }
        Record::Snapshot { .. }
        | Record::Expired { .. }
        | Record::DirItem { .. }
        | Record::FileItem { .. } => Ok(true),
        _ => Ok(false),
    }
}

/// Whether a record may change what snapshots copy otherwise than by a chunk at a file's end. It is told whether it may change a name at
/// a source or below it.
pub fn touches<A: Allocator + Clone>(
    state: &State<A>,
    files: &OrderedMap<()>,
    entry: &Record,
    is_moved: bool,
) -> bool
    ensures { (snapshots : List PendingSnapshot) → is_moved ≡ moves snapshots entry.now → result ≡ touches state.now snapshots files.now entry.now }
{
    match entry {
        Record::Create { file, .. } => has(files, file.0) || is_moved,
        Record::Grant { handle, .. } => is_for_one(state, files, *handle),
        _ => is_moved,
    }
}

/// Whether what was known is known still, after a record that touches it or not.
pub fn stays_known(known: bool, touched: bool) -> bool
    ensures { result ≡ (known && not touched) }
{
    known && !touched
}

/// Whether a path is a source, or lies below one, by a look at each.
pub fn is_source(snapshots: &[Pending], path: &str) -> bool
    ensures { result ≡ is_source snapshots.now path.now }
{
    snapshots
        .iter()
        .any(|snapshot| is_at_or_below(snapshot.from().as_str(), path))
}

/// Whether the hidden name of a deleted file may lie at a source or below it, by a look at each.
pub fn are_by_trash(snapshots: &[Pending]) -> bool
    ensures { result ≡ list_any (λ s. is_by_trash s.from) snapshots.now }
{
    snapshots
        .iter()
        .any(|snapshot| is_by_trash(snapshot.from()))
}

fn is_by_trash(path: &Path) -> bool
    ensures { result ≡ is_by_trash path.now }
{
    is_at_or_below(path.as_str(), "/.gone") || is_at_or_below("/.gone", path.as_str())
}

fn is_for_one<A: Allocator + Clone>(
    state: &State<A>,
    files: &OrderedMap<()>,
    handle: Handle,
) -> bool
    ensures { result ≡ is_for_one files.now (map.get state.now.copies handle.0) }
{
    match state.copy_under(handle) {
        Some(copy) => has(files, copy.file().0),
        None => false,
    }
}

/// A chunk that a record adds to one of the files is one of the chunks from now on. Answers whether the chunks are still known: they
/// were, and memory was not refused.
pub fn follow(
    chunks: &mut OrderedMap<()>,
    files: &OrderedMap<()>,
    entry: &Record,
    stays: bool,
) -> bool
    ensures { result ≡ true → (stays ≡ true) × (chunks.new ≡ followed files.now chunks.old entry.now) }
{
    let Record::AddChunk { file, handle } = entry else {
        return stays;
    };
    if !has(files, file.0) {
        return stays;
    }
    match chunks.insert(handle.0, ()) {
        Ok(()) => stays,
        Err(_) => false,
    }
}
