//! Items of a checkpoint, read from the bytes after their tag.

ghost use Rattle.std.specs.Prelude.{◌≡◌};
ghost use Rattle.log_codec.specs.Reading.{Gives};
ghost use Rattle.log_codec.specs.Records.{chunk_in, client_in, counters_in, dir_in, file_in, shaped_file_in};

use crate::fault::DecodeFault;
use crate::read_fields::{
    all_read, handle_list_at, outcome_at, servers_at, shape_at, text_at, u16_at, u64_at,
};
use gfs_types::ids::{ClientId, FileId, Handle, ServerId, Version};
use log_records::record::Record;
use std::alloc::Global;

#[tactic(auto, unfolding(crate::specs::Records::counters_in))]
pub fn counters(bytes: &[u8]) -> Result<Record, DecodeFault>
    ensures { Gives (λ r. r) result (counters_in bytes.now) }
{
    let (next_file, rest) = u64_at(bytes)?;
    let (next_handle, rest) = u64_at(rest)?;
    let (epoch, rest) = u64_at(rest)?;
    all_read(rest)?;
    Ok(Record::Counters {
        next_file: FileId(next_file),
        next_handle: Handle(next_handle),
        epoch,
    })
}

#[tactic(auto, unfolding(crate::specs::Records::dir_in))]
pub fn dir(bytes: &[u8], alloc: Global) -> Result<Record, DecodeFault>
    ensures { Gives (λ r. r) result (dir_in bytes.now) }
{
    let (path, rest) = text_at(bytes, alloc)?;
    all_read(rest)?;
    Ok(Record::DirItem { path })
}

#[tactic(auto, unfolding(crate::specs::Records::file_in))]
pub fn file(bytes: &[u8], alloc: Global) -> Result<Record, DecodeFault>
    ensures { Gives (λ r. r) result (file_in bytes.now) }
{
    let (path, rest) = text_at(bytes, alloc)?;
    let (file, rest) = u64_at(rest)?;
    let (handles, rest) = handle_list_at(rest, alloc)?;
    all_read(rest)?;
    Ok(Record::FileItem {
        path,
        file: FileId(file),
        shape: None,
        handles,
    })
}

#[tactic(auto, unfolding(crate::specs::Records::shaped_file_in))]
pub fn shaped_file(bytes: &[u8], alloc: Global) -> Result<Record, DecodeFault>
    ensures { Gives (λ r. r) result (shaped_file_in bytes.now) }
{
    let (path, rest) = text_at(bytes, alloc)?;
    let (file, rest) = u64_at(rest)?;
    let (shape, rest) = shape_at(rest)?;
    let (handles, rest) = handle_list_at(rest, alloc)?;
    all_read(rest)?;
    Ok(Record::FileItem {
        path,
        file: FileId(file),
        shape: Some(shape),
        handles,
    })
}

#[tactic(auto, unfolding(crate::specs::Records::chunk_in))]
pub fn chunk(bytes: &[u8], alloc: Global) -> Result<Record, DecodeFault>
    ensures { Gives (λ r. r) result (chunk_in bytes.now) }
{
    let (handle, rest) = u64_at(bytes)?;
    let (granted, rest) = u64_at(rest)?;
    let (issued, rest) = u64_at(rest)?;
    let (primary, rest) = u16_at(rest)?;
    let (members, rest) = servers_at(rest, alloc)?;
    all_read(rest)?;
    Ok(Record::ChunkItem {
        handle: Handle(handle),
        granted: Version(granted),
        issued: Version(issued),
        primary: ServerId(primary),
        members,
    })
}

#[tactic(auto, unfolding(crate::specs::Records::client_in))]
pub fn client(bytes: &[u8]) -> Result<Record, DecodeFault>
    ensures { Gives (λ r. r) result (client_in bytes.now) }
{
    let (client, rest) = u64_at(bytes)?;
    let (call, rest) = u64_at(rest)?;
    let (refusal, rest) = outcome_at(rest)?;
    all_read(rest)?;
    Ok(Record::ClientItem {
        client: ClientId(client),
        call,
        refusal,
    })
}
