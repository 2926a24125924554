//! Changes of single chunks in the map by handle. None of them takes memory.

ghost use Rattle.std.specs.Prelude.{◌≡◌, ℕ, ◌+◌, ◌<◌, ◌≤◌, length, IfSome, OnSome, OnOk};
ghost use Rattle.std.specs.FinMap as map;
ghost use Rattle.gfs_types.specs.Counters.{counter_limit};
ghost use Rattle.chunk_table.specs.ChunkTable.{changed_at, row_issued, row_granted, row_ended, row_put, row_restarted, share_one, share_all, leave_one, leave_all, own_one, with_owned};
ghost use Rattle.chunk_table.specs.Owners.{references_at};

use crate::chunk::Chunk;
use gfs_types::ids::{Moment, ServerId, Version};
use gfs_types::lists::ServerList;
use gfs_types::no_memory::NoMemory;
use gfs_types::shape::Shape;
use ordered_map::number_map::NumberMap;
use std::alloc::Global;

pub(crate) fn issue_at(chunks: &mut NumberMap<Chunk>, handle: u64, version: Version)
    ensures { chunks.new ≡ changed_at chunks.old handle (row_issued version.0) }
{
    if let Some(chunk) = chunks.get_mut(handle) {
        chunk.issue(version);
    }
}

pub(crate) fn grant_at(
    chunks: &mut NumberMap<Chunk>,
    handle: u64,
    version: Version,
    primary: ServerId,
    members: ServerList,
)
    ensures { chunks.new ≡ changed_at chunks.old handle (row_granted version.0 primary.0 members) }
{
    if let Some(chunk) = chunks.get_mut(handle) {
        chunk.grant(version, primary, members);
    }
}

pub(crate) fn put_at(
    chunks: &mut NumberMap<Chunk>,
    handle: u64,
    granted: Version,
    issued: Version,
    primary: ServerId,
    members: ServerList,
)
    ensures { chunks.new ≡ changed_at chunks.old handle (row_put granted.0 issued.0 primary.0 members) }
{
    if let Some(chunk) = chunks.get_mut(handle) {
        chunk.put(granted, issued, primary, members);
    }
}

pub(crate) fn end_at(chunks: &mut NumberMap<Chunk>, handle: u64, moment: Moment)
    ensures { chunks.new ≡ changed_at chunks.old handle (row_ended moment.0) }
{
    if let Some(chunk) = chunks.get_mut(handle) {
        chunk.set_end(moment);
    }
}

pub(crate) fn restart_at(chunks: &mut NumberMap<Chunk>, handle: u64, until: Moment, usual: Shape)
    ensures { chunks.new ≡ changed_at chunks.old handle (row_restarted until.0 usual) }
{
    if let Some(chunk) = chunks.get_mut(handle) {
        chunk.restart(until, usual);
    }
}

pub(crate) fn share_at(chunks: &mut NumberMap<Chunk>, handle: u64)
    requires { references_at chunks.old handle < counter_limit }
    ensures { chunks.new ≡ share_one chunks.old handle }
{
    if let Some(chunk) = chunks.get_mut(handle) {
        chunk.share();
    }
}

pub(crate) fn leave_at(chunks: &mut NumberMap<Chunk>, handle: u64)
    ensures { chunks.new ≡ leave_one chunks.old handle }
{
    let Some(chunk) = chunks.get(handle) else {
        return;
    };
    if chunk.references() <= 1 {
        chunks.remove(handle);
        return;
    }
    if let Some(chunk) = chunks.get_mut(handle) {
        chunk.leave();
    }
}

pub(crate) fn share_each(chunks: &mut NumberMap<Chunk>, handles: &[u64])
    requires { (handle : ℕ) → references_at chunks.old handle + length handles.now ≤ counter_limit }
    ensures { chunks.new ≡ share_all chunks.old handles.now }
{
    for handle in handles {
        share_at(chunks, *handle);
    }
}

pub(crate) fn leave_each(chunks: &mut NumberMap<Chunk>, handles: &[u64])
    ensures { chunks.new ≡ leave_all chunks.old handles.now }
{
    for handle in handles {
        leave_at(chunks, *handle);
    }
}

pub(crate) fn own_at(
    alloc: Global,
    shape: Shape,
    chunks: &mut NumberMap<Chunk>,
    handle: u64,
) -> Result<(), NoMemory>
    requires { references_at chunks.old handle < counter_limit }
    ensures { OnOk result (chunks.new ≡ own_one shape chunks.old handle) }
{
    if chunks.get(handle).is_some() {
        share_at(chunks, handle);
        return Ok(());
    }
    chunks.insert(handle, Chunk::new(alloc, shape, Version(0), 1))?;
    Ok(())
}

pub(crate) fn own_each(
    alloc: Global,
    shape: Shape,
    chunks: &mut NumberMap<Chunk>,
    handles: &[u64],
) -> Result<(), NoMemory>
    requires { (handle : ℕ) → references_at chunks.old handle + length handles.now ≤ counter_limit }
    ensures { OnOk result (chunks.new ≡ with_owned shape chunks.old handles.now) }
{
    for handle in handles {
        own_at(alloc, shape, chunks, *handle)?;
    }
    Ok(())
}
