//! How a snapshot waits for one chunk after the other.

ghost use Rattle.std.specs.Prelude.{◌≡◌, true, false, Some, IfOk, IfSome};
ghost use Rattle.std.specs.List.{list_all};
ghost use Rattle.std.specs.FinMap.{get};
ghost use Rattle.gfs_types.specs.Paths.{is_at_or_below};
ghost use Rattle.relaxed_file.specs.Names.{File};
ghost use Rattle.chunk_table.specs.ChunkTable.{chunk_of, handles_of};
ghost use Rattle.protocol.specs.MasterSnapshots.{is_ready, row_has_ended};
ghost use Rattle.master_plan.specs.Plans.{known};

use crate::alone::{file_alone, handles_of};
use crate::snapshots_ready::{has_ended, is_ready};
use gfs_types::ids::{FileId, Handle};
use gfs_types::path::Path;
use master_plan::plan::Plan;
use master_waiting::fault::PlanFault;
use master_waiting::waiting::{Awaited, Pending};
use namespace::name_kind::NameKind;
use namespace::node::NameNode;
use path_trie::child::Child;
use path_trie::parts::is_at_or_below;
use std::alloc::Allocator;

/// Whether no lease of the chunks that a snapshot concerns is left to end. First a chunk is looked at for which the snapshot waited when
/// it was asked last: only where that one's lease has ended are names and chunks gone over.
pub fn has_waited<A: Allocator + Clone>(
    plan: &mut Plan<A>,
    snapshot: &Pending,
) -> Result<bool, PlanFault>
    ensures answer { IfOk result (λ b. b ≡ is_ready (known plan.old) snapshot.now) }
    ensures same { plan.new ≡ plan.old }
{
    if must_wait(plan, snapshot, snapshot.awaited()) {
        return Ok(false);
    }
    let found = last_awaited(plan, snapshot)?;
    let ready = is_ready_beside(plan, snapshot, found.as_ref())?;
    note(plan, snapshot, found);
    Ok(ready)
}

fn is_ready_beside<A: Allocator + Clone>(
    plan: &Plan<A>,
    snapshot: &Pending,
    awaited: Option<&Awaited>,
) -> Result<bool, PlanFault>
    ensures { IfOk result (λ b. b ≡ is_ready (known plan.now) snapshot.now) }
{
    if must_wait(plan, snapshot, awaited) {
        return Ok(false);
    }
    is_ready(plan, snapshot)
}

fn note<A: Allocator + Clone>(plan: &mut Plan<A>, snapshot: &Pending, found: Option<Awaited>)
    ensures { plan.new ≡ plan.old }
{
    if let Some(awaited) = found {
        plan.note_awaited(snapshot.client(), snapshot.number(), awaited);
    }
}

// Whether the snapshot has to wait for a chunk that is there still.
fn must_wait<A: Allocator + Clone>(
    plan: &Plan<A>,
    snapshot: &Pending,
    awaited: Option<&Awaited>,
) -> bool
    ensures { result ≡ true → is_ready (known plan.now) snapshot.now ≡ false }
{
    match awaited {
        Some(awaited) => is_awaited(plan, snapshot, awaited),
        None => false,
    }
}

// Whether there is a chunk whose lease has not ended, in a file at the snapshot's source or below it.
fn is_awaited<A: Allocator + Clone>(plan: &Plan<A>, snapshot: &Pending, awaited: &Awaited) -> bool
    ensures { result ≡ true → is_ready (known plan.now) snapshot.now ≡ false }
{
    if !is_in_source(snapshot, &awaited.path) {
        return false;
    }
    let Some(file) = file_at(plan, &awaited.path) else {
        return false;
    };
    is_leased(plan, file, awaited.index)
}

pub(crate) fn is_in_source(snapshot: &Pending, path: &Path) -> bool
    ensures { result ≡ is_at_or_below snapshot.now.from path.now }
{
    is_at_or_below(snapshot.from().as_str(), path.as_str())
}

pub(crate) fn file_at<A: Allocator + Clone>(plan: &Plan<A>, path: &Path) -> Option<FileId>
    ensures { IfSome result (λ file. get plan.now.logged.names path.now ≡ Some (File file.0)) }
{
    let names = plan.state().names();
    let Some(node) = names.get(path) else {
        return None;
    };
    let NameKind::File(file) = node.kind() else {
        return None;
    };
    Some(file)
}

// Whether the lease of a file's chunk at this index has not ended.
fn is_leased<A: Allocator + Clone>(plan: &Plan<A>, file: FileId, index: usize) -> bool
    ensures { result ≡ true → list_all (λ handle. row_has_ended plan.now.now (chunk_of plan.now.logged.table handle)) (handles_of plan.now.logged.table file.0) ≡ false }
{
    match handles_of(plan, file).get(index) {
        Some(handle) => !has_ended(plan, Handle(*handle)),
        None => false,
    }
}

// Where the last chunk is that the snapshot has to wait for, in the order of names and of a file's chunks.
fn last_awaited<A: Allocator + Clone>(
    plan: &Plan<A>,
    snapshot: &Pending,
) -> Result<Option<Awaited>, PlanFault> {
    if let Some(file) = file_alone(plan, snapshot) {
        return awaited_in(plan, snapshot.from().as_str(), file);
    }
    let names = plan.state().names().entries(plan.alloc())?;
    let count = names.len();
    for back in 0..count {
        let found = awaited_at(plan, snapshot, &names[count - 1 - back])?;
        if found.is_some() {
            return Ok(found);
        }
    }
    Ok(None)
}

fn awaited_at<A: Allocator + Clone>(
    plan: &Plan<A>,
    snapshot: &Pending,
    name: &Child<'_, NameNode>,
) -> Result<Option<Awaited>, PlanFault> {
    let NameKind::File(file) = name.value().kind() else {
        return Ok(None);
    };
    if !is_at_or_below(snapshot.from().as_str(), name.name()) {
        return Ok(None);
    }
    awaited_in(plan, name.name(), file)
}

// The last chunk of the file at this path whose lease has not ended.
fn awaited_in<A: Allocator + Clone>(
    plan: &Plan<A>,
    path: &str,
    file: FileId,
) -> Result<Option<Awaited>, PlanFault> {
    let Some(index) = last_leased(plan, file) else {
        return Ok(None);
    };
    match Path::parse(plan.alloc(), path) {
        Ok(path) => Ok(Some(Awaited { path, index })),
        Err(_) => Err(PlanFault::NoMemory),
    }
}

fn last_leased<A: Allocator + Clone>(plan: &Plan<A>, file: FileId) -> Option<usize> {
    let count = handles_of(plan, file).len();
    for back in 0..count {
        let index = count - 1 - back;
        if is_leased(plan, file, index) {
            return Some(index);
        }
    }
    None
}
