//! What a call asks for.

ghost use Rattle.std.specs.Prelude.{◌≡◌, map, IfOk};
ghost use Rattle.relaxed_file.specs.Parts.{is_range_too_long};
ghost use Rattle.relaxed_file.specs.NameStep.{is_look, is_name_call};
ghost use Rattle.protocol.specs.Sending.{server_id};
ghost use Rattle.protocol.specs.PushBuffer.{next_hop, hops_after};
ghost use Rattle.protocol.specs.ClientAttempts.{is_mutation, is_length, bytes_to_send, target_of, read_start, read_count, wanted_by, chunk_to_find};
ghost use Rattle.protocol.specs.ClientStep.{fd_of};

use crate::parts::{part_bytes, part_length, part_start};
use crate::sums::sum;
use bytes::Bytes;
use client_state::call::CurrentCall;
use data_push::next_hop;
use gfs_types::call::Call;
use gfs_types::ids::ServerId;
use gfs_types::lists::ServerList;
use gfs_types::no_memory::NoMemory;
use messages::message::{Target, Wanted};
use std::alloc::Global;

const LONGEST_RANGE: u64 = 67_108_864;

const LAST_PLACE: u64 = 9_007_199_254_740_992;

/// A write or a record append.
pub fn is_mutation(call: &Call) -> bool
    ensures { result ≡ is_mutation call.now }
{
    matches!(call, Call::Write(_, _, _) | Call::Append(_, _))
}

pub fn is_length(call: &Call) -> bool
    ensures { result ≡ is_length call.now }
{
    matches!(call, Call::Length(_))
}

/// A name call that only looks.
pub fn is_look(call: &Call) -> bool
    ensures { result ≡ is_look call.now }
{
    matches!(call, Call::Open(_) | Call::List(_))
}

pub fn is_name_call(call: &Call) -> bool
    ensures { result ≡ is_name_call call.now }
{
    !matches!(
        call,
        Call::Close(_)
            | Call::Length(_)
            | Call::Write(_, _, _)
            | Call::Append(_, _)
            | Call::Read(_, _, _)
    )
}

/// The number of the call's descriptor; 0 of a name call.
pub fn fd_of(call: &Call) -> u64
    ensures { result ≡ fd_of call.now }
{
    match call {
        Call::Close(fd) => fd.0,
        Call::Length(fd) => fd.0,
        Call::Write(fd, _, _) => fd.0,
        Call::Append(fd, _) => fd.0,
        Call::Read(fd, _, _) => fd.0,
        _ => 0,
    }
}

/// A range that no call may have.
pub fn is_range_too_long(offset: u64, count: u64) -> bool
    ensures { result ≡ is_range_too_long offset count }
{
    count > LONGEST_RANGE || offset > LAST_PLACE || offset + count > LAST_PLACE
}

/// What the master is asked for.
pub fn wanted_by(index: u64, call: &Call) -> Wanted
    ensures { result ≡ wanted_by index call.now }
{
    match call {
        Call::Read(_, _, _) => Wanted::Read(index),
        Call::Write(_, _, _) => Wanted::Write(index),
        Call::Append(_, _) => Wanted::Append(index),
        _ => Wanted::Last,
    }
}

/// Where in its chunk a mutation's part goes: a record where the primary says.
pub fn target_of(chunk: u64, index: u64, call: &Call) -> Target
    ensures { result ≡ target_of chunk index call.now }
{
    match call {
        Call::Write(_, offset, _) => Target::Write(part_start(chunk, *offset, index)),
        _ => Target::Append,
    }
}

/// The bytes of a mutation's part, which share the call's memory.
pub fn bytes_to_send(chunk: u64, index: u64, call: &Call) -> Result<Bytes, NoMemory>
    ensures { IfOk result (λ b. b ≡ bytes_to_send chunk index call.now) }
{
    match call {
        Call::Write(_, offset, bytes) => {
            sum(*offset, bytes.len() as u64)?;
            part_bytes(chunk, *offset, bytes, index)
        }
        Call::Append(_, bytes) => Ok(bytes.clone()?),
        _ => Ok(Bytes::new()),
    }
}

/// Where in its chunk a read's part begins.
pub fn read_start(chunk: u64, index: u64, call: &Call) -> u64
    ensures { result ≡ read_start chunk index call.now }
{
    match call {
        Call::Read(_, offset, _) => part_start(chunk, *offset, index),
        _ => 0,
    }
}

/// How long a read's part is.
pub fn read_count(chunk: u64, index: u64, call: &Call) -> Result<u64, NoMemory>
    ensures { IfOk result (λ count. count ≡ read_count chunk index call.now) }
{
    match call {
        Call::Read(_, offset, count) => {
            sum(*offset, *count)?;
            Ok(part_length(chunk, *offset, *count, index))
        }
        _ => Ok(0),
    }
}

/// The chunk whose kept location an attempt looks for.
pub fn chunk_to_find(current: &CurrentCall) -> Option<u64>
    ensures { result ≡ chunk_to_find current.now current.now.asked }
{
    match &current.asked {
        Call::Append(_, _) => current.last_chunk,
        Call::Length(_) => None,
        _ => Some(current.index),
    }
}

/// Servers by their numbers.
fn server_ids(alloc: Global, numbers: &[u16]) -> Result<Vec<ServerId>, NoMemory>
    ensures { IfOk result (λ servers. servers.items ≡ map server_id numbers.now) }
{
    let mut servers = Vec::new(alloc);
    for number in numbers {
        servers.push(ServerId(*number))?;
    }
    Ok(servers)
}

/// The member that gets the data first, which passes them on.
pub fn first_hop(alloc: Global, members: &[u16]) -> Result<Option<ServerId>, NoMemory>
    ensures { IfOk result (λ hop. hop ≡ next_hop members.now 0) }
{
    let servers = server_ids(alloc, members)?;
    Ok(next_hop(servers.as_slice(), ServerId(0)))
}

/// The members that come after that one.
pub fn hops_after(alloc: Global, members: &[u16], next: u16) -> Result<ServerList, NoMemory>
    ensures { IfOk result (λ hops. hops ≡ hops_after members.now next) }
{
    let after: Vec<u16> = members
        .iter()
        .copied()
        .filter(|n| next < *n)
        .collect(alloc)?;
    Ok(ServerList::new(after))
}
