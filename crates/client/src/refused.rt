//! Refusals of the master, of primaries and of servers that are to read.

ghost use Rattle.std.specs.Prelude.{◌≡◌, IfOk};
ghost use Rattle.protocol.specs.Client.{client_begins};
ghost use Rattle.protocol.specs.ClientTakes.{master_refuses, stays_live, finds_full, primary_refuses, takes_refused};
ghost use Rattle.client.specs.Doing.{doing};
ghost use Rattle.client.specs.Takes.{holding, server_refuses};

use crate::asked::is_append;
use crate::client::Client;
use crate::placed::with_less_live;
use client_calls::effects::ClientEffects;
use client_calls::sums::sum;
use client_state::call::{CurrentCall, LiveAttempt, Stage, ToldChunk};
use gfs_types::answer::Answer;
use gfs_types::ids::Moment;
use gfs_types::no_memory::NoMemory;
use gfs_types::refusal::Refusal;
use std::mem;

/// A Refused.
pub fn takes_refused(
    client: &mut Client,
    current: CurrentCall,
    number: u64,
    refusal: Refusal,
) -> Result<ClientEffects, NoMemory>
    ensures { IfOk result (λ e. takes_refused (holding client.old current) current current.stage number refusal ≡ doing client.new e) }
{
    match &current.stage {
        Stage::AskedWhere(asked) => {
            if *asked == number {
                Ok(master_refuses(client, current, refusal))
            } else {
                Ok(client.waits(current))
            }
        }
        Stage::SentMutate {
            chunk,
            number: asked,
        } => {
            if *asked != number {
                return Ok(client.waits(current));
            }
            let chunk = *chunk;
            client.forgets(&current, chunk);
            primary_refuses(client, current, chunk, refusal)
        }
        Stage::SentRead { .. } => server_refuses(client, current, number),
        _ => Ok(client.waits(current)),
    }
}

/// The master's refusals of an ask: TooLong and Collected complete the call.
fn master_refuses(client: &mut Client, current: CurrentCall, refusal: Refusal) -> ClientEffects
    ensures { master_refuses (holding client.old current) current refusal ≡ doing client.new result }
{
    match refusal {
        Refusal::TooLong => client.completes(current, Answer::Refused(Refusal::TooLong)),
        Refusal::Collected => client.completes(current, Answer::Refused(Refusal::Collected)),
        _ => client.waits(current),
    }
}

/// A server that can't serve is left, and the next one asked, if their location may still be used.
#[tactic(auto, using(crate::proofs::Held::reader_refuses_held))]
fn server_refuses(
    client: &mut Client,
    mut current: CurrentCall,
    number: u64,
) -> Result<ClientEffects, NoMemory>
    ensures { IfOk result (λ e. server_refuses (holding client.old current) current current.stage number ≡ doing client.new e) }
{
    let stage = mem::replace(&mut current.stage, Stage::IsOver);
    match stage {
        Stage::SentRead {
            chunk,
            left,
            number: asked,
        } => {
            if asked != number {
                current.stage = Stage::SentRead {
                    chunk,
                    left,
                    number: asked,
                };
                return Ok(client.waits(current));
            }
            client.forgets(&current, chunk);
            if !client.is_new_enough(current.told) {
                return Ok(client.asks_anew(current));
            }
            client.reads_next(current, chunk, left.as_slice())
        }
        stage => {
            current.stage = stage;
            Ok(client.waits(current))
        }
    }
}

/// The attempt stays live until its deadline and the clock bound.
fn stays_live(
    client: &Client,
    mut current: CurrentCall,
    chunk: ToldChunk,
) -> Result<CurrentCall, NoMemory>
    ensures { IfOk result (λ c. c ≡ stays_live (client_begins client.now) current chunk) }
{
    let until = sum(current.deadline.0, client.config().skew_ms)?;
    current.lost_lease = true;
    current.live.push(LiveAttempt {
        index: chunk.index,
        version: chunk.round,
        until: Moment(until),
    })?;
    Ok(current)
}

/// An append that finds its chunk full looks past it.
fn finds_full(
    client: &mut Client,
    mut current: CurrentCall,
    chunk: ToldChunk,
) -> Result<ClientEffects, NoMemory>
    ensures { IfOk result (λ e. finds_full (client_begins client.old) current chunk ≡ doing client.new e) }
{
    if !is_append(&current.asked) {
        return Ok(client.ends_refused(current));
    }
    current.stage = Stage::IsOver;
    current.index = sum(chunk.index, 1)?;
    Ok(client.waits(current))
}

/// The primary refused the attempt. Where it has no lease or no replica, it may still be placed.
fn primary_refuses(
    client: &mut Client,
    current: CurrentCall,
    chunk: ToldChunk,
    refusal: Refusal,
) -> Result<ClientEffects, NoMemory>
    ensures { IfOk result (λ e. primary_refuses (holding client.old current) current chunk refusal ≡ doing client.new e) }
{
    match refusal {
        Refusal::NoChunk | Refusal::NoLease => {
            let current = stays_live(client, current, chunk)?;
            Ok(client.ends_refused(current))
        }
        Refusal::ChunkFull => {
            let current = with_less_live(client.alloc(), current, chunk)?;
            finds_full(client, current, chunk)
        }
        _ => {
            let current = with_less_live(client.alloc(), current, chunk)?;
            Ok(client.ends_refused(current))
        }
    }
}
