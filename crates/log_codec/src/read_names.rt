//! Records of name calls, read from the bytes after their tag.

ghost use Rattle.std.specs.Prelude.{◌≡◌};
ghost use Rattle.log_codec.specs.Reading.{Gives};
ghost use Rattle.log_codec.specs.Records.{create_in, delete_in, epoch_in, mkdir_in, refused_in, rename_in, rmdir_in, shaped_create_in, snapshot_in};

use crate::fault::DecodeFault;
use crate::read_fields::{all_read, refusal_at, shape_at, text_at, u64_at};
use gfs_types::ids::{ClientId, FileId, Moment};
use log_records::record::Record;
use std::alloc::Global;

#[tactic(auto, unfolding(crate::specs::Records::epoch_in))]
pub fn epoch(bytes: &[u8]) -> Result<Record, DecodeFault>
    ensures { Gives (λ r. r) result (epoch_in bytes.now) }
{
    let (epoch, rest) = u64_at(bytes)?;
    all_read(rest)?;
    Ok(Record::Epoch { epoch })
}

#[tactic(auto, unfolding(crate::specs::Records::mkdir_in))]
pub fn mkdir(bytes: &[u8], alloc: Global) -> Result<Record, DecodeFault>
    ensures { Gives (λ r. r) result (mkdir_in bytes.now) }
{
    let (client, rest) = u64_at(bytes)?;
    let (call, rest) = u64_at(rest)?;
    let (path, rest) = text_at(rest, alloc)?;
    all_read(rest)?;
    Ok(Record::Mkdir {
        client: ClientId(client),
        call,
        path,
    })
}

#[tactic(auto, unfolding(crate::specs::Records::rmdir_in))]
pub fn rmdir(bytes: &[u8], alloc: Global) -> Result<Record, DecodeFault>
    ensures { Gives (λ r. r) result (rmdir_in bytes.now) }
{
    let (client, rest) = u64_at(bytes)?;
    let (call, rest) = u64_at(rest)?;
    let (path, rest) = text_at(rest, alloc)?;
    all_read(rest)?;
    Ok(Record::Rmdir {
        client: ClientId(client),
        call,
        path,
    })
}

#[tactic(auto, unfolding(crate::specs::Records::create_in))]
pub fn create(bytes: &[u8], alloc: Global) -> Result<Record, DecodeFault>
    ensures { Gives (λ r. r) result (create_in bytes.now) }
{
    let (client, rest) = u64_at(bytes)?;
    let (call, rest) = u64_at(rest)?;
    let (file, rest) = u64_at(rest)?;
    let (path, rest) = text_at(rest, alloc)?;
    all_read(rest)?;
    Ok(Record::Create {
        client: ClientId(client),
        call,
        file: FileId(file),
        shape: None,
        path,
    })
}

#[tactic(auto, unfolding(crate::specs::Records::shaped_create_in))]
pub fn shaped_create(bytes: &[u8], alloc: Global) -> Result<Record, DecodeFault>
    ensures { Gives (λ r. r) result (shaped_create_in bytes.now) }
{
    let (client, rest) = u64_at(bytes)?;
    let (call, rest) = u64_at(rest)?;
    let (file, rest) = u64_at(rest)?;
    let (shape, rest) = shape_at(rest)?;
    let (path, rest) = text_at(rest, alloc)?;
    all_read(rest)?;
    Ok(Record::Create {
        client: ClientId(client),
        call,
        file: FileId(file),
        shape: Some(shape),
        path,
    })
}

#[tactic(auto, unfolding(crate::specs::Records::delete_in))]
pub fn delete(bytes: &[u8], alloc: Global) -> Result<Record, DecodeFault>
    ensures { Gives (λ r. r) result (delete_in bytes.now) }
{
    let (client, rest) = u64_at(bytes)?;
    let (call, rest) = u64_at(rest)?;
    let (moment, rest) = u64_at(rest)?;
    let (path, rest) = text_at(rest, alloc)?;
    all_read(rest)?;
    Ok(Record::Delete {
        client: ClientId(client),
        call,
        moment: Moment(moment),
        path,
    })
}

#[tactic(auto, unfolding(crate::specs::Records::rename_in))]
pub fn rename(bytes: &[u8], alloc: Global) -> Result<Record, DecodeFault>
    ensures { Gives (λ r. r) result (rename_in bytes.now) }
{
    let (client, rest) = u64_at(bytes)?;
    let (call, rest) = u64_at(rest)?;
    let (from, rest) = text_at(rest, alloc)?;
    let (to, rest) = text_at(rest, alloc)?;
    all_read(rest)?;
    Ok(Record::Rename {
        client: ClientId(client),
        call,
        from,
        to,
    })
}

#[tactic(auto, unfolding(crate::specs::Records::snapshot_in))]
pub fn snapshot(bytes: &[u8], alloc: Global) -> Result<Record, DecodeFault>
    ensures { Gives (λ r. r) result (snapshot_in bytes.now) }
{
    let (client, rest) = u64_at(bytes)?;
    let (call, rest) = u64_at(rest)?;
    let (from, rest) = text_at(rest, alloc)?;
    let (to, rest) = text_at(rest, alloc)?;
    all_read(rest)?;
    Ok(Record::Snapshot {
        client: ClientId(client),
        call,
        from,
        to,
    })
}

#[tactic(auto, unfolding(crate::specs::Records::refused_in))]
pub fn refused(bytes: &[u8]) -> Result<Record, DecodeFault>
    ensures { Gives (λ r. r) result (refused_in bytes.now) }
{
    let (client, rest) = u64_at(bytes)?;
    let (call, rest) = u64_at(rest)?;
    let (refusal, rest) = refusal_at(rest)?;
    all_read(rest)?;
    Ok(Record::Refused {
        client: ClientId(client),
        call,
        refusal,
    })
}
