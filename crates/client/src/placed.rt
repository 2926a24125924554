//! What servers say of a mutation's data: that all members have them, and where the primary placed them.

ghost use Rattle.std.specs.Prelude.{◌≡◌, IfOk};
ghost use Rattle.protocol.specs.Client.{client_begins};
ghost use Rattle.protocol.specs.ClientTakes.{takes_pushed, less_live, succeeds, takes_done};
ghost use Rattle.client.specs.Doing.{doing};
ghost use Rattle.client.specs.Takes.{holding};

use crate::asked::{begins_next_part, has_next_part, is_append};
use crate::client::Client;
use client_calls::effects::ClientEffects;
use client_calls::live::less_live;
use client_calls::parts::place_in_file;
use client_state::call::{CurrentCall, Stage, ToldChunk};
use gfs_types::answer::Answer;
use gfs_types::ids::DataId;
use gfs_types::no_memory::NoMemory;
use std::alloc::Global;

/// A Pushed: all members have the data, and the primary is asked to place them, if its location may still be used.
pub fn takes_pushed(
    client: &mut Client,
    current: CurrentCall,
    id: DataId,
) -> Result<ClientEffects, NoMemory>
    ensures { IfOk result (λ e. takes_pushed (holding client.old current) current current.stage id ≡ doing client.new e) }
{
    match &current.stage {
        Stage::SentData {
            chunk,
            primary,
            number,
        } => {
            if !client.is_own_data(id, *number) {
                return Ok(client.waits(current));
            }
            if !client.is_new_enough(current.told) {
                return Ok(client.asks_anew(current));
            }
            let plan = client.mutate_planned(&current, *chunk, *primary, *number)?;
            Ok(client.commits(current, plan))
        }
        _ => Ok(client.waits(current)),
    }
}

/// The primary gave this attempt an answer of another kind: earlier ones are live no more.
pub fn with_less_live(
    alloc: Global,
    mut current: CurrentCall,
    chunk: ToldChunk,
) -> Result<CurrentCall, NoMemory>
    ensures { IfOk result (λ c. c ≡ less_live current chunk) }
{
    let live = less_live(alloc, current.live.as_slice(), chunk)?;
    current.live = live;
    Ok(current)
}

/// A part is settled.
fn succeeds(
    client: &mut Client,
    current: CurrentCall,
    chunk: ToldChunk,
    place: u64,
) -> Result<ClientEffects, NoMemory>
    ensures { IfOk result (λ e. succeeds (client_begins client.old) current chunk place ≡ doing client.new e) }
{
    let size = client.chunk_size(current.file.0);
    if is_append(&current.asked) {
        client.found_end(current.file, chunk.index)?;
        let place = place_in_file(size, chunk.index, place);
        return Ok(client.completes(current, Answer::At(place)));
    }
    if has_next_part(size, current.index, &current.asked)? {
        return begins_next_part(client, current);
    }
    Ok(client.completes(current, Answer::Done))
}

/// A Done.
#[tactic(auto, using(crate::proofs::Held::succeeds_held))]
pub fn takes_done(
    client: &mut Client,
    current: CurrentCall,
    id: DataId,
    place: u64,
) -> Result<ClientEffects, NoMemory>
    ensures { IfOk result (λ e. takes_done (holding client.old current) current current.stage id place ≡ doing client.new e) }
{
    match &current.stage {
        Stage::SentMutate { chunk, number } => {
            if !client.is_own_data(id, *number) {
                return Ok(client.waits(current));
            }
            let chunk = *chunk;
            let current = with_less_live(client.alloc(), current, chunk)?;
            succeeds(client, current, chunk, place)
        }
        _ => Ok(client.waits(current)),
    }
}
