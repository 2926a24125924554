//! What the client does at a tick: attempts that had no answer end, and the next ones begin.

ghost use Rattle.std.specs.Prelude.{◌≡◌, IfOk};
ghost use Rattle.protocol.specs.Client.{client_begins};
ghost use Rattle.protocol.specs.ClientStep.{ticks_names, ends_unanswered, ticks_at};
ghost use Rattle.client.specs.Doing.{doing};
ghost use Rattle.client.specs.Takes.{holding};
ghost use Rattle.client.specs.Ticks.{ticks_told, ticks_untold, completes_again};

use crate::client::Client;
use crate::client_attempts::ended;
use client_calls::effects::ClientEffects;
use client_state::call::{CurrentCall, Stage, ToldChunk};
use gfs_types::answer::Answer;
use gfs_types::no_memory::NoMemory;
use gfs_types::refusal::Refusal;
use std::mem;

/// The call has what completes it, which is its answer at the first step at which it may be answered.
pub fn completes_again(client: &mut Client, mut current: CurrentCall) -> ClientEffects
    ensures { completes_again (holding client.old current) current current.stage ≡ doing client.new result }
{
    let stage = mem::replace(&mut current.stage, Stage::IsOver);
    match stage {
        Stage::HasAnswer(answer) => client.completes(current, answer),
        stage => {
            current.stage = stage;
            client.waits(current)
        }
    }
}

/// A tick of a client with an open call.
#[tactic(auto, using(crate::proofs::Held::attempts_held))]
pub fn ticks_at(client: &mut Client, current: CurrentCall) -> Result<ClientEffects, NoMemory>
    ensures { IfOk result (λ e. ticks_at (holding client.old current) current current.stage ≡ doing client.new e) }
{
    match &current.stage {
        Stage::AskedNames => ticks_names(client, current),
        Stage::HasAnswer(_) => Ok(completes_again(client, current)),
        Stage::IsOver => client.attempts(current),
        Stage::MustAskAgain => {
            if client.clock() < current.deadline.0 {
                client.asks(current)
            } else {
                ticks_untold(client, current)
            }
        }
        Stage::AskedWhere(_) => ticks_untold(client, current),
        Stage::SentData { chunk, .. } => {
            let chunk = *chunk;
            ticks_told(client, current, chunk)
        }
        Stage::SentMutate { chunk, .. } => {
            let chunk = *chunk;
            ticks_told(client, current, chunk)
        }
        Stage::SentRead { chunk, .. } => {
            let chunk = *chunk;
            ticks_told(client, current, chunk)
        }
    }
}

/// A name call's request without an answer.
fn ticks_names(client: &mut Client, current: CurrentCall) -> Result<ClientEffects, NoMemory>
    ensures { IfOk result (λ e. ticks_names (holding client.old current) current ≡ doing client.new e) }
{
    if client.is_waiting(&current) {
        return Ok(client.waits(current));
    }
    if current.left <= 1 {
        return Ok(client.answers(Answer::Refused(Refusal::Unknown)));
    }
    client.attempts_names(ended(current))
}

/// An attempt without a location.
#[tactic(auto, using(crate::proofs::Held::unanswered_held))]
fn ticks_untold(client: &mut Client, current: CurrentCall) -> Result<ClientEffects, NoMemory>
    ensures { IfOk result (λ e. ticks_untold (holding client.old current) current ≡ doing client.new e) }
{
    if client.is_waiting(&current) {
        return Ok(client.waits(current));
    }
    ends_unanswered(client, current)
}

/// An attempt with a location, which is dropped when the attempt ends.
#[tactic(auto, using(crate::proofs::Held::unanswered_held))]
fn ticks_told(
    client: &mut Client,
    current: CurrentCall,
    chunk: ToldChunk,
) -> Result<ClientEffects, NoMemory>
    ensures { IfOk result (λ e. ticks_told (holding client.old current) current chunk ≡ doing client.new e) }
{
    if client.is_waiting(&current) {
        return Ok(client.waits(current));
    }
    client.forgets(&current, chunk);
    ends_unanswered(client, current)
}

/// An attempt ends without an answer; the next one begins, if there is one.
fn ends_unanswered(client: &mut Client, current: CurrentCall) -> Result<ClientEffects, NoMemory>
    ensures { IfOk result (λ e. ends_unanswered (client_begins client.old) current ≡ doing client.new e) }
{
    let is_last = current.left <= 1;
    let mut over = ended(current);
    over.lost_lease = false;
    if is_last {
        return Ok(client.gives_up(over));
    }
    client.attempts(over)
}
