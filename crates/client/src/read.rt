//! Bytes and lengths that servers read.

ghost use Rattle.std.specs.Prelude.{◌≡◌, Some, IfOk};
ghost use Rattle.protocol.specs.Client.{client_begins};
ghost use Rattle.protocol.specs.ClientTakes.{gets, takes_bytes, takes_len_is};
ghost use Rattle.client.specs.Doing.{doing};
ghost use Rattle.client.specs.Takes.{holding, with_found, answers_read};

use crate::asked::{begins_next_part, has_next_part};
use crate::client::Client;
use bytes::Bytes;
use client_calls::asked::{is_length, is_mutation, read_count};
use client_calls::effects::ClientEffects;
use client_calls::parts::place_in_file;
use client_state::call::{CurrentCall, Stage};
use client_state::gathered::Gathered;
use gfs_types::answer::Answer;
use gfs_types::call::Call;
use gfs_types::no_memory::NoMemory;
use std::alloc::Global;
use std::mem;

/// What a read has so far, with these bytes of a part and their round.
fn with_found(
    alloc: Global,
    mut current: CurrentCall,
    found: &Bytes,
    round: Option<u64>,
) -> Result<CurrentCall, NoMemory>
    ensures { IfOk result (λ c. c ≡ with_found current found.now round) }
{
    let wanted = match &current.asked {
        Call::Read(_, _, count) => *count,
        _ => 0,
    };
    let bytes = mem::replace(&mut current.bytes, Gathered::new(alloc));
    current.bytes = bytes.with(found, wanted as usize)?;
    match round {
        None => Ok(current),
        Some(round) => {
            current.rounds.push(round)?;
            Ok(current)
        }
    }
}

/// A read is answered with what it has.
fn answers_read(client: &mut Client, current: CurrentCall) -> Result<ClientEffects, NoMemory>
    ensures { IfOk result (λ e. answers_read (client_begins client.old) current ≡ doing client.new e) }
{
    if is_mutation(&current.asked) {
        return Err(NoMemory);
    }
    let (gathered, rounds) = current.into_read();
    let bytes = gathered.into_bytes()?;
    Ok(client.answers(Answer::Bytes { bytes, rounds }))
}

/// Bytes of a part came, or there is no such chunk. A part that is shorter than was asked is the last one.
pub fn gets(
    client: &mut Client,
    current: CurrentCall,
    found: &Bytes,
    round: Option<u64>,
) -> Result<ClientEffects, NoMemory>
    ensures { IfOk result (λ e. gets (client_begins client.old) current found.now round ≡ doing client.new e) }
{
    let size = client.chunk_size(current.file.0);
    let wanted = read_count(size, current.index, &current.asked)?;
    let has_next = has_next_part(size, current.index, &current.asked)?;
    let got = with_found(client.alloc(), current, found, round)?;
    if (found.len() as u64) < wanted || !has_next {
        return answers_read(client, got);
    }
    begins_next_part(client, got)
}

/// Bytes of a part came, which were asked for at this round.
#[tactic(auto, using(crate::proofs::Held::gets_held))]
fn gets_part(
    client: &mut Client,
    current: CurrentCall,
    found: &Bytes,
    round: u64,
) -> Result<ClientEffects, NoMemory>
    ensures { IfOk result (λ e. gets (holding client.old current) current found.now (Some round) ≡ doing client.new e) }
{
    gets(client, current, found, Some(round))
}

/// A Bytes.
pub fn takes_bytes(
    client: &mut Client,
    current: CurrentCall,
    number: u64,
    bytes: &Bytes,
) -> Result<ClientEffects, NoMemory>
    ensures { IfOk result (λ e. takes_bytes (holding client.old current) current current.stage number bytes.now ≡ doing client.new e) }
{
    match &current.stage {
        Stage::SentRead {
            chunk,
            left: _,
            number: asked,
        } => {
            if *asked == number && !is_length(&current.asked) {
                let round = chunk.round.0;
                gets_part(client, current, bytes, round)
            } else {
                Ok(client.waits(current))
            }
        }
        _ => Ok(client.waits(current)),
    }
}

/// A LenIs.
pub fn takes_len_is(
    client: &mut Client,
    current: CurrentCall,
    number: u64,
    count: u64,
) -> ClientEffects
    ensures { takes_len_is (holding client.old current) current current.stage number count ≡ doing client.new result }
{
    match &current.stage {
        Stage::SentRead {
            chunk,
            left: _,
            number: asked,
        } => {
            if *asked == number && is_length(&current.asked) {
                let length = place_in_file(client.chunk_size(current.file.0), chunk.index, count);
                client.completes(current, Answer::Length(length))
            } else {
                client.waits(current)
            }
        }
        _ => client.waits(current),
    }
}
