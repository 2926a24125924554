//! The bytes of a record or an item.

ghost use Rattle.std.specs.Prelude.{◌≡◌, ◌↔◌, ◌∷◌, ◌++◌, IfOk, IsFalse, IsTrue, OnOk};
ghost use Rattle.gfs_types.specs.Paths.{is_path};
ghost use Rattle.log_codec.specs.Fields.{number, path, IsNumber, IsPath};
ghost use Rattle.log_codec.specs.Kinds.{has_two_paths, is_of_master};
ghost use Rattle.log_codec.specs.Payloads.{has_shape, is_item, payload, IsRecord, IsWritable};
ghost use Rattle.log_records.specs.declared.record.Record.TheVariants.{Create as CreateRecord, FileItem as FileRecord};

use crate::write_fields::{
    put_handles, put_outcome, put_path, put_servers, put_shape, put_u16, put_u32, put_u64,
};
use gfs_types::ids::{ClientId, FileId};
use gfs_types::lists::{HandleList, Text};
use gfs_types::no_memory::NoMemory;
use gfs_types::path::accepts_path;
use gfs_types::shape::Shape;
use log_records::record::Record;
use std::alloc::Global;

fn is_path(text: &Text) -> bool
    ensures { result ≡ is_path text.now }
{
    accepts_path(text.as_str().as_bytes())
}

fn put_one(out: &mut Vec<u8>, tag: u8, first: u64) -> Result<(), NoMemory>
    ensures bytes { OnOk result (out.new.items ≡ out.old.items ++ tag ∷ number first) }
    ensures first { IsNumber first }
{
    out.push(tag)?;
    put_u64(out, first)
}

fn put_two(out: &mut Vec<u8>, tag: u8, first: u64, second: u64) -> Result<(), NoMemory>
    ensures bytes { OnOk result (out.new.items ≡ out.old.items ++ tag ∷ (number first ++ number second)) }
    ensures first { IsNumber first }
    ensures second { IsNumber second }
{
    put_one(out, tag, first)?;
    put_u64(out, second)
}

fn put_three(
    out: &mut Vec<u8>,
    tag: u8,
    first: u64,
    second: u64,
    third: u64,
) -> Result<(), NoMemory>
    ensures bytes { OnOk result (out.new.items ≡ out.old.items ++ tag ∷ (number first ++ number second ++ number third)) }
    ensures first { IsNumber first }
    ensures second { IsNumber second }
    ensures third { IsNumber third }
{
    put_two(out, tag, first, second)?;
    put_u64(out, third)
}

/// Whether it is an item of a checkpoint, and no record of a change.
pub fn is_item(entry: &Record) -> bool
    ensures { result ≡ is_item entry.now }
{
    matches!(
        entry,
        Record::Counters { .. }
            | Record::DirItem { .. }
            | Record::FileItem { .. }
            | Record::ChunkItem { .. }
            | Record::ClientItem { .. }
    )
}

/// Whether it tells a file's shape. A log of format 1 has no such record or item.
pub fn has_shape(entry: &Record) -> bool
    ensures { result ≡ has_shape entry.now }
{
    matches!(
        entry,
        Record::Create { shape: Some(_), .. } | Record::FileItem { shape: Some(_), .. }
    )
}

/// Whether each field has room for it: paths are paths, members are fewer than 256, the number of handles and the index fit 4 bytes.
pub fn is_writable(entry: &Record) -> bool
    ensures { IsTrue result ↔ IsWritable entry.now }
{
    match entry {
        Record::Mkdir { path, .. }
        | Record::Rmdir { path, .. }
        | Record::Create { path, .. }
        | Record::Delete { path, .. }
        | Record::DirItem { path } => is_path(path),
        Record::Rename { from, to, .. } | Record::Snapshot { from, to, .. } => {
            is_path(from) && is_path(to)
        }
        Record::Grant { members, .. } | Record::ChunkItem { members, .. } => members.len() < 256,
        Record::CopyStart { index, .. } => *index < 1 << 32,
        Record::FileItem { path, handles, .. } => is_path(path) && handles.len() < 1 << 32,
        _ => true,
    }
}

fn is_of_master(entry: &Record) -> bool
    ensures { result ≡ is_of_master entry.now }
{
    matches!(
        entry,
        Record::Epoch { .. }
            | Record::Expired { .. }
            | Record::AddChunk { .. }
            | Record::Issue { .. }
            | Record::Grant { .. }
            | Record::CopyStart { .. }
    )
}

fn put_file(
    out: &mut Vec<u8>,
    path: &Text,
    file: FileId,
    shape: Option<Shape>,
    handles: &HandleList,
) -> Result<(), NoMemory>
    requires { IsWritable (FileRecord path.now file shape handles.now) }
    ensures bytes { OnOk result (out.new.items ≡ out.old.items ++ payload (FileRecord path.now file shape handles.now)) }
    ensures stands { OnOk result (IsRecord (FileRecord path.now file shape handles.now)) }
{
    match shape {
        None => {
            out.push(22)?;
            put_path(out, path)?;
            put_u64(out, file.0)?;
            put_handles(out, handles)
        }
        Some(shape) => {
            out.push(25)?;
            put_path(out, path)?;
            put_u64(out, file.0)?;
            put_shape(out, shape)?;
            put_handles(out, handles)
        }
    }
}

fn put_item(out: &mut Vec<u8>, entry: &Record) -> Result<(), NoMemory>
    requires kind { IsTrue (is_item entry.now) }
    requires writable { IsWritable entry.now }
    ensures bytes { OnOk result (out.new.items ≡ out.old.items ++ payload entry.now) }
    ensures stands { OnOk result (IsRecord entry.now) }
{
    match entry {
        Record::Counters {
            next_file,
            next_handle,
            epoch,
        } => put_three(out, 20, next_file.0, next_handle.0, *epoch),
        Record::DirItem { path } => {
            out.push(21)?;
            put_path(out, path)
        }
        Record::FileItem {
            path,
            file,
            shape,
            handles,
        } => put_file(out, path, *file, *shape, handles),
        Record::ChunkItem {
            handle,
            granted,
            issued,
            primary,
            members,
        } => {
            put_three(out, 23, handle.0, granted.0, issued.0)?;
            put_u16(out, primary.0)?;
            put_servers(out, members)
        }
        Record::ClientItem {
            client,
            call,
            refusal,
        } => {
            put_two(out, 24, client.0, *call)?;
            put_outcome(out, *refusal)
        }
        _ => Ok(()),
    }
}

fn put_of_master(out: &mut Vec<u8>, entry: &Record) -> Result<(), NoMemory>
    requires kind { IsTrue (is_of_master entry.now) }
    requires writable { IsWritable entry.now }
    ensures bytes { OnOk result (out.new.items ≡ out.old.items ++ payload entry.now) }
    ensures stands { OnOk result (IsRecord entry.now) }
{
    match entry {
        Record::Epoch { epoch } => put_one(out, 1, *epoch),
        Record::Expired { file } => put_one(out, 9, file.0),
        Record::AddChunk { file, handle } => put_two(out, 10, file.0, handle.0),
        Record::Issue { handle, version } => put_two(out, 11, handle.0, version.0),
        Record::Grant {
            handle,
            version,
            primary,
            members,
        } => {
            put_two(out, 12, handle.0, version.0)?;
            put_u16(out, primary.0)?;
            put_servers(out, members)
        }
        Record::CopyStart {
            file,
            index,
            handle,
            copy,
            copy_version,
        } => {
            put_one(out, 13, file.0)?;
            put_u32(out, *index as u32)?;
            put_u64(out, handle.0)?;
            put_u64(out, copy.0)?;
            put_u64(out, copy_version.0)
        }
        _ => Ok(()),
    }
}

fn put_move(out: &mut Vec<u8>, entry: &Record) -> Result<(), NoMemory>
    requires kind { IsTrue (has_two_paths entry.now) }
    requires writable { IsWritable entry.now }
    ensures bytes { OnOk result (out.new.items ≡ out.old.items ++ payload entry.now) }
    ensures stands { OnOk result (IsRecord entry.now) }
{
    match entry {
        Record::Rename {
            client,
            call,
            from,
            to,
        } => {
            put_two(out, 6, client.0, *call)?;
            put_path(out, from)?;
            put_path(out, to)
        }
        Record::Snapshot {
            client,
            call,
            from,
            to,
        } => {
            put_two(out, 7, client.0, *call)?;
            put_path(out, from)?;
            put_path(out, to)
        }
        _ => Ok(()),
    }
}

fn put_create(
    out: &mut Vec<u8>,
    client: ClientId,
    call: u64,
    file: FileId,
    shape: Option<Shape>,
    path: &Text,
) -> Result<(), NoMemory>
    requires { IsTrue (is_path path.now) }
    ensures bytes { OnOk result (out.new.items ≡ out.old.items ++ payload (CreateRecord client call file shape path.now)) }
    ensures stands { OnOk result (IsRecord (CreateRecord client call file shape path.now)) }
{
    match shape {
        None => {
            put_three(out, 4, client.0, call, file.0)?;
            put_path(out, path)
        }
        Some(shape) => {
            put_three(out, 15, client.0, call, file.0)?;
            put_shape(out, shape)?;
            put_path(out, path)
        }
    }
}

fn put_call(out: &mut Vec<u8>, entry: &Record) -> Result<(), NoMemory>
    requires items { IsFalse (is_item entry.now) }
    requires master { IsFalse (is_of_master entry.now) }
    requires writable { IsWritable entry.now }
    ensures bytes { OnOk result (out.new.items ≡ out.old.items ++ payload entry.now) }
    ensures stands { OnOk result (IsRecord entry.now) }
{
    match entry {
        Record::Mkdir { client, call, path } => {
            put_two(out, 2, client.0, *call)?;
            put_path(out, path)
        }
        Record::Rmdir { client, call, path } => {
            put_two(out, 3, client.0, *call)?;
            put_path(out, path)
        }
        Record::Create {
            client,
            call,
            file,
            shape,
            path,
        } => put_create(out, *client, *call, *file, *shape, path),
        Record::Delete {
            client,
            call,
            moment,
            path,
        } => {
            put_three(out, 5, client.0, *call, moment.0)?;
            put_path(out, path)
        }
        Record::Refused {
            client,
            call,
            refusal,
        } => {
            put_two(out, 8, client.0, *call)?;
            put_outcome(out, Some(*refusal))
        }
        _ => put_move(out, entry),
    }
}

/// Writes the bytes of a record or an item at the end. At `NoMemory` a part of them may stand there.
pub fn put_record(out: &mut Vec<u8>, entry: &Record) -> Result<(), NoMemory>
    requires { IsWritable entry.now }
    ensures bytes { OnOk result (out.new.items ≡ out.old.items ++ payload entry.now) }
    ensures stands { OnOk result (IsRecord entry.now) }
{
    if is_item(entry) {
        put_item(out, entry)
    } else if is_of_master(entry) {
        put_of_master(out, entry)
    } else {
        put_call(out, entry)
    }
}

/// The bytes of a record or an item.
///
/// `NoMemory`: an allocator refused them.
pub fn encode(alloc: Global, entry: &Record) -> Result<Vec<u8>, NoMemory>
    requires { IsWritable entry.now }
    ensures bytes { IfOk result (λ v. v.items ≡ payload entry.now) }
    // What is written is a record of the grammar, so that it is read again.
    ensures stands { OnOk result (IsRecord entry.now) }
{
    let mut out = Vec::new(alloc);
    put_record(&mut out, entry)?;
    Ok(out)
}
