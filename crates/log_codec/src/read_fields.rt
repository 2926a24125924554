//! Fields, read from the front of bytes.

ghost use Rattle.std.specs.Prelude.{◌≡◌, ◌<◌, length, IfErr, OnOk};
ghost use Rattle.log_codec.specs.declared.fault.DecodeFault.TheVariants.{Damaged};
ghost use Rattle.log_codec.specs.Reading.{Gives, byte_at, handles_at, index_at, many_at, members_at, number_at, outcome_at, path_at, path_in, refusal_at, refusal_numbered, server_at, shape_at};

use crate::fault::DecodeFault;
use gfs_types::lists::{HandleList, ServerList, Text};
use gfs_types::path::accepts_path;
use gfs_types::refusal::Refusal;
use gfs_types::shape::Shape;
use std::alloc::Global;

#[tactic(auto, unfolding(crate::specs::Reading::number_at))]
pub fn u64_at(bytes: &[u8]) -> Result<(u64, &[u8]), DecodeFault>
    ensures { Gives (λ x. (x.0, x.1.now)) result (number_at bytes.now) }
{
    if bytes.len() < 8 {
        return Err(DecodeFault::Damaged);
    }
    let (front, rest) = bytes.split_at(8);
    let number = u64::from_le_bytes([
        front[0], front[1], front[2], front[3], front[4], front[5], front[6], front[7],
    ]);
    Ok((number, rest))
}

#[tactic(auto, unfolding(crate::specs::Reading::index_at))]
pub fn u32_at(bytes: &[u8]) -> Result<(u32, &[u8]), DecodeFault>
    ensures { Gives (λ x. (x.0, x.1.now)) result (index_at bytes.now) }
{
    if bytes.len() < 4 {
        return Err(DecodeFault::Damaged);
    }
    let (front, rest) = bytes.split_at(4);
    let number = u32::from_le_bytes([front[0], front[1], front[2], front[3]]);
    Ok((number, rest))
}

#[tactic(auto, unfolding(crate::specs::Reading::server_at))]
pub fn u16_at(bytes: &[u8]) -> Result<(u16, &[u8]), DecodeFault>
    ensures { Gives (λ x. (x.0, x.1.now)) result (server_at bytes.now) }
{
    if bytes.len() < 2 {
        return Err(DecodeFault::Damaged);
    }
    let (front, rest) = bytes.split_at(2);
    Ok((u16::from_le_bytes([front[0], front[1]]), rest))
}

#[tactic(auto, unfolding(crate::specs::Reading::path_in))]
fn path_of(bytes: &[u8], alloc: Global) -> Result<Text, DecodeFault>
    ensures { Gives (λ t. t) result (path_in bytes.now) }
{
    if !accepts_path(bytes) {
        return Err(DecodeFault::Damaged);
    }
    let Ok(text) = str::from_utf8(bytes) else {
        return Err(DecodeFault::Damaged);
    };
    Ok(Text::from_str(text, alloc)?)
}

#[tactic(auto, unfolding(crate::specs::Reading::path_at))]
pub fn text_at(bytes: &[u8], alloc: Global) -> Result<(Text, &[u8]), DecodeFault>
    ensures { Gives (λ x. (x.0, x.1.now)) result (path_at bytes.now) }
{
    let (len, rest) = u16_at(bytes)?;
    let len = usize::from(len);
    if rest.len() < len {
        return Err(DecodeFault::Damaged);
    }
    let (text, rest) = rest.split_at(len);
    Ok((path_of(text, alloc)?, rest))
}

fn servers_of(count: u8, bytes: &[u8], alloc: Global) -> Result<(ServerList, &[u8]), DecodeFault>
    ensures { Gives (λ x. (x.0, x.1.now)) result (many_at server_at count bytes.now) }
{
    let mut servers = ServerList::empty(alloc);
    let mut rest = bytes;
    for _ in 0..count {
        let (server, after) = u16_at(rest)?;
        servers.push(server)?;
        rest = after;
    }
    Ok((servers, rest))
}

#[tactic(auto, unfolding(crate::specs::Reading::members_at))]
pub fn servers_at(bytes: &[u8], alloc: Global) -> Result<(ServerList, &[u8]), DecodeFault>
    ensures { Gives (λ x. (x.0, x.1.now)) result (members_at bytes.now) }
{
    match bytes {
        [] => Err(DecodeFault::Damaged),
        [count, rest @ ..] => servers_of(*count, rest, alloc),
    }
}

fn handles_of(count: u32, bytes: &[u8], alloc: Global) -> Result<(HandleList, &[u8]), DecodeFault>
    ensures { Gives (λ x. (x.0, x.1.now)) result (many_at number_at count bytes.now) }
{
    let mut handles = HandleList::empty(alloc);
    let mut rest = bytes;
    for _ in 0..count {
        let (handle, after) = u64_at(rest)?;
        handles.push(handle)?;
        rest = after;
    }
    Ok((handles, rest))
}

#[tactic(auto, unfolding(crate::specs::Reading::handles_at))]
pub fn handle_list_at(bytes: &[u8], alloc: Global) -> Result<(HandleList, &[u8]), DecodeFault>
    ensures { Gives (λ x. (x.0, x.1.now)) result (handles_at bytes.now) }
{
    let (count, rest) = u32_at(bytes)?;
    handles_of(count, rest, alloc)
}

#[tactic(auto, unfolding(crate::specs::Reading::byte_at))]
fn u8_at(bytes: &[u8]) -> Result<(u8, &[u8]), DecodeFault>
    ensures { Gives (λ x. (x.0, x.1.now)) result (byte_at bytes.now) }
{
    match bytes {
        [] => Err(DecodeFault::Damaged),
        [byte, rest @ ..] => Ok((*byte, rest)),
    }
}

#[tactic(auto, unfolding(crate::specs::Reading::shape_at))]
pub fn shape_at(bytes: &[u8]) -> Result<(Shape, &[u8]), DecodeFault>
    ensures { Gives (λ x. (x.0, x.1.now)) result (shape_at bytes.now) }
{
    let (chunk, rest) = u32_at(bytes)?;
    let (goal, rest) = u8_at(rest)?;
    Ok((Shape { chunk, goal }, rest))
}

#[tactic(auto, unfolding(crate::specs::Reading::refusal_numbered))]
fn refusal_of(number: u8) -> Result<Refusal, DecodeFault>
    ensures { Gives (λ r. r) result (refusal_numbered number) }
{
    match number {
        1 => Ok(Refusal::BadPath),
        2 => Ok(Refusal::NoParent),
        3 => Ok(Refusal::Exists),
        4 => Ok(Refusal::NotFound),
        5 => Ok(Refusal::NotFile),
        6 => Ok(Refusal::NotDir),
        7 => Ok(Refusal::NotEmpty),
        8 => Ok(Refusal::Reserved),
        9 => Ok(Refusal::Inside),
        10 => Ok(Refusal::Busy),
        11 => Ok(Refusal::TooLong),
        12 => Ok(Refusal::BadFd),
        13 => Ok(Refusal::NamesFull),
        14 => Ok(Refusal::Collected),
        15 => Ok(Refusal::NoReplica),
        16 => Ok(Refusal::Failed),
        17 => Ok(Refusal::Unknown),
        18 => Ok(Refusal::NoMemory),
        19 => Ok(Refusal::ClockBroken),
        20 => Ok(Refusal::JournalFull),
        21 => Ok(Refusal::Closed),
        22 => Ok(Refusal::BadSize),
        31 => Ok(Refusal::NoChunk),
        32 => Ok(Refusal::Version),
        33 => Ok(Refusal::NoLease),
        34 => Ok(Refusal::NoData),
        35 => Ok(Refusal::OldSerial),
        36 => Ok(Refusal::OldRequest),
        37 => Ok(Refusal::Late),
        38 => Ok(Refusal::Corrupt),
        39 => Ok(Refusal::NoRoom),
        40 => Ok(Refusal::OldOrder),
        41 => Ok(Refusal::ChunkFull),
        42 => Ok(Refusal::ServerTooLong),
        _ => Err(DecodeFault::Damaged),
    }
}

#[tactic(auto, unfolding(crate::specs::Reading::refusal_at))]
pub fn refusal_at(bytes: &[u8]) -> Result<(Refusal, &[u8]), DecodeFault>
    ensures { Gives (λ x. (x.0, x.1.now)) result (refusal_at bytes.now) }
{
    match bytes {
        [] => Err(DecodeFault::Damaged),
        [number, rest @ ..] => Ok((refusal_of(*number)?, rest)),
    }
}

#[tactic(auto, unfolding(crate::specs::Reading::outcome_at))]
pub fn outcome_at(bytes: &[u8]) -> Result<(Option<Refusal>, &[u8]), DecodeFault>
    ensures { Gives (λ x. (x.0, x.1.now)) result (outcome_at bytes.now) }
{
    match bytes {
        [] => Err(DecodeFault::Damaged),
        [0, rest @ ..] => Ok((None, rest)),
        [number, rest @ ..] => Ok((Some(refusal_of(*number)?), rest)),
    }
}

/// Damaged where bytes are left.
pub fn all_read(rest: &[u8]) -> Result<(), DecodeFault>
    ensures ok { OnOk result (length rest.now ≡ 0) }
    ensures err { IfErr result (λ e. (e ≡ Damaged) × (0 < length rest.now)) }
{
    if rest.is_empty() {
        Ok(())
    } else {
        Err(DecodeFault::Damaged)
    }
}
