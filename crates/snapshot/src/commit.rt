//! A snapshot is taken.

ghost use Rattle.std.specs.Prelude.{◌≡◌, ◌<◌, false, is_none, IfOk, OnOk, IsErrOf, IsTrue, IsFalse};
ghost use Rattle.std.specs.FinMap as map;
ghost use Rattle.relaxed_file.specs.Names.{copy_of_node, with_copies};
ghost use Rattle.chunk_table.specs.ChunkTable.{chunk_of, with_shared};
ghost use Rattle.chunk_table.specs.Refusals.{share_refusal};
ghost use Rattle.leases.specs.LeaseEnds.{has_ended, last_moment};
ghost use Rattle.snapshot.specs.Copies.{are_all_closed, are_closed, is_closed, is_node_closed, with_all_shared, with_node_shared, may_share, may_share_all};
ghost use Rattle.snapshot.specs.declared.fault.SnapshotFault.TheVariants.{Leased, Refused};

use crate::fault::SnapshotFault;
use crate::plan::SnapshotPlan;
use chunk_table::chunk::Chunk;
use chunk_table::fault::TableFault;
use chunk_table::table::Table;
use gfs_types::ids::{FileId, Handle, Moment};
use gfs_types::no_memory::NoMemory;
use gfs_types::path::Path;
use namespace::name_kind::NameKind;
use namespace::node::{NameNode, Namespace};
use std::alloc::Allocator;

/// Takes a snapshot: each name of the plan is put, in the order of their paths, and each file gets the next id and the chunks of the
/// file that it is copied from. Only chunks whose leases have ended are shared. Leased: one has not, and nothing has changed; no lease
/// is held at the last moment. Refused: a file isn't there, or a counter is at its limit. After Refused and NoMemory a part of the
/// names and files may stand, and both are to be dropped.
pub fn commit<A: Allocator + Clone>(
    plan: &SnapshotPlan,
    names: &mut Namespace<A>,
    table: &mut Table,
    now: Moment,
) -> Result<(), SnapshotFault>
    ensures closed { OnOk result (IsTrue (are_all_closed table.old.table now.0 plan.now.copies)) }
    ensures names { OnOk result (names.new ≡ with_copies names.old table.old.next_file plan.now.copies) }
    ensures table { OnOk result (table.new ≡ with_all_shared table.old plan.now.copies) }
    ensures allowed { OnOk result (IsTrue (may_share_all table.old plan.now.copies)) }
    ensures leased { IsErrOf result Leased → IsFalse (are_all_closed table.old.table now.0 plan.now.copies) × (now.0 < last_moment) }
    ensures unchanged { IsErrOf result Leased → (names.new ≡ names.old) × (table.new ≡ table.old) }
    ensures refused { IsErrOf result Refused → IsFalse (may_share_all table.old plan.now.copies) }
{
    if !are_all_closed(table, plan.copies(), now) {
        return Err(SnapshotFault::Leased);
    }
    put_copies(plan.copies(), names, table)
}

fn are_all_closed(table: &Table, copies: &[(Path, NameNode)], now: Moment) -> bool
    ensures answer { result ≡ are_all_closed table.now.table now.0 copies.now }
    ensures last { result ≡ false → now.0 < last_moment }
{
    for copy in copies {
        if !is_node_closed(table, &copy.1, now) {
            return false;
        }
    }
    true
}

fn is_node_closed(table: &Table, node: &NameNode, now: Moment) -> bool
    ensures answer { result ≡ is_node_closed table.now.table now.0 node.now }
    ensures last { result ≡ false → now.0 < last_moment }
{
    let NameKind::File(id) = node.kind() else {
        return true;
    };
    match table.file(id) {
        Some(handles) => are_closed(table, handles.as_slice(), now),
        None => true,
    }
}

/// Whether the lease of each of these chunks has ended. Takes no memory.
pub fn are_closed(table: &Table, handles: &[u64], now: Moment) -> bool
    ensures answer { result ≡ are_closed table.now.table now.0 handles.now }
    ensures last { result ≡ false → now.0 < last_moment }
{
    for handle in handles {
        if !is_closed(table, Handle(*handle), now) {
            return false;
        }
    }
    true
}

/// Whether the lease of a chunk has ended; true where there is no such chunk.
pub fn is_closed(table: &Table, handle: Handle, now: Moment) -> bool
    ensures answer { result ≡ is_closed now.0 (chunk_of table.now.table handle.0) }
    ensures last { result ≡ false → now.0 < last_moment }
{
    match table.chunk(handle) {
        Some(chunk) => ends_by(chunk, now),
        None => true,
    }
}

fn ends_by(chunk: &Chunk, now: Moment) -> bool
    ensures answer { result ≡ has_ended chunk.now now.0 }
    ensures last { result ≡ false → now.0 < last_moment }
{
    let Moment(end) = chunk.lease_end();
    end <= now.0
}

fn put_copies<A: Allocator + Clone>(
    copies: &[(Path, NameNode)],
    names: &mut Namespace<A>,
    table: &mut Table,
) -> Result<(), SnapshotFault>
    ensures names { OnOk result (names.new ≡ with_copies names.old table.old.next_file copies.now) }
    ensures table { OnOk result (table.new ≡ with_all_shared table.old copies.now) }
    ensures allowed { OnOk result (IsTrue (may_share_all table.old copies.now)) }
    ensures leased { IsErrOf result Leased → ⊥ }
    ensures refused { IsErrOf result Refused → IsFalse (may_share_all table.old copies.now) }
{
    for copy in copies {
        put_copy(&copy.0, &copy.1, names, table)?;
    }
    Ok(())
}

// One name is put, a file under the next id, with the same chunks.
fn put_copy<A: Allocator + Clone>(
    path: &Path,
    node: &NameNode,
    names: &mut Namespace<A>,
    table: &mut Table,
) -> Result<(), SnapshotFault>
    ensures names { OnOk result (names.new ≡ map.insert names.old path.now (copy_of_node table.old.next_file node.now)) }
    ensures table { OnOk result (table.new ≡ with_node_shared table.old node.now) }
    ensures allowed { OnOk result (IsTrue (may_share table.old node.now)) }
    ensures leased { IsErrOf result Leased → ⊥ }
    ensures refused { IsErrOf result Refused → IsFalse (may_share table.old node.now) }
{
    match node.kind() {
        NameKind::Dir => put(names, path, NameNode::dir())?,
        NameKind::File(id) => {
            let copy = share(table, id)?;
            put(names, path, NameNode::file(copy))?;
        }
    }
    Ok(())
}

fn put<A: Allocator + Clone>(
    names: &mut Namespace<A>,
    path: &Path,
    node: NameNode,
) -> Result<(), NoMemory>
    ensures { OnOk result (names.new ≡ map.insert names.old path.now node) }
{
    match names.insert(path, node) {
        Ok(()) => Ok(()),
        Err(_) => Err(NoMemory),
    }
}

fn share(table: &mut Table, file: FileId) -> Result<FileId, SnapshotFault>
    ensures file { IfOk result (λ copy. copy.0 ≡ table.old.next_file) }
    ensures table { OnOk result (table.new ≡ with_shared table.old file.0) }
    ensures allowed { OnOk result (IsTrue (is_none (share_refusal table.old file.0))) }
    ensures leased { IsErrOf result Leased → ⊥ }
    ensures refused { IsErrOf result Refused → IsFalse (is_none (share_refusal table.old file.0)) }
{
    match table.share(file) {
        Ok(copy) => Ok(copy),
        Err(TableFault::NoMemory) => Err(SnapshotFault::NoMemory),
        Err(_) => Err(SnapshotFault::Refused),
    }
}
