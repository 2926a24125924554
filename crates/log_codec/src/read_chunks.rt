//! Records of files' chunks, read from the bytes after their tag.

ghost use Rattle.std.specs.Prelude.{◌≡◌};
ghost use Rattle.log_codec.specs.Reading.{Gives};
ghost use Rattle.log_codec.specs.Records.{add_chunk_in, copy_start_in, expired_in, grant_in, issue_in};

use crate::fault::DecodeFault;
use crate::read_fields::{all_read, servers_at, u16_at, u32_at, u64_at};
use gfs_types::ids::{FileId, Handle, ServerId, Version};
use log_records::record::Record;
use std::alloc::Global;

#[tactic(auto, unfolding(crate::specs::Records::expired_in))]
pub fn expired(bytes: &[u8]) -> Result<Record, DecodeFault>
    ensures { Gives (λ r. r) result (expired_in bytes.now) }
{
    let (file, rest) = u64_at(bytes)?;
    all_read(rest)?;
    Ok(Record::Expired { file: FileId(file) })
}

#[tactic(auto, unfolding(crate::specs::Records::add_chunk_in))]
pub fn add_chunk(bytes: &[u8]) -> Result<Record, DecodeFault>
    ensures { Gives (λ r. r) result (add_chunk_in bytes.now) }
{
    let (file, rest) = u64_at(bytes)?;
    let (handle, rest) = u64_at(rest)?;
    all_read(rest)?;
    Ok(Record::AddChunk {
        file: FileId(file),
        handle: Handle(handle),
    })
}

#[tactic(auto, unfolding(crate::specs::Records::issue_in))]
pub fn issue(bytes: &[u8]) -> Result<Record, DecodeFault>
    ensures { Gives (λ r. r) result (issue_in bytes.now) }
{
    let (handle, rest) = u64_at(bytes)?;
    let (version, rest) = u64_at(rest)?;
    all_read(rest)?;
    Ok(Record::Issue {
        handle: Handle(handle),
        version: Version(version),
    })
}

#[tactic(auto, unfolding(crate::specs::Records::grant_in))]
pub fn grant(bytes: &[u8], alloc: Global) -> Result<Record, DecodeFault>
    ensures { Gives (λ r. r) result (grant_in bytes.now) }
{
    let (handle, rest) = u64_at(bytes)?;
    let (version, rest) = u64_at(rest)?;
    let (primary, rest) = u16_at(rest)?;
    let (members, rest) = servers_at(rest, alloc)?;
    all_read(rest)?;
    Ok(Record::Grant {
        handle: Handle(handle),
        version: Version(version),
        primary: ServerId(primary),
        members,
    })
}

#[tactic(auto, unfolding(crate::specs::Records::copy_start_in))]
pub fn copy_start(bytes: &[u8]) -> Result<Record, DecodeFault>
    ensures { Gives (λ r. r) result (copy_start_in bytes.now) }
{
    let (file, rest) = u64_at(bytes)?;
    let (index, rest) = u32_at(rest)?;
    let (handle, rest) = u64_at(rest)?;
    let (copy, rest) = u64_at(rest)?;
    let (copy_version, rest) = u64_at(rest)?;
    all_read(rest)?;
    Ok(Record::CopyStart {
        file: FileId(file),
        index: u64::from(index),
        handle: Handle(handle),
        copy: Handle(copy),
        copy_version: Version(copy_version),
    })
}
