//! Replies of the master to name calls.

ghost use Rattle.std.specs.Prelude.{◌≡◌, IfOk};
ghost use Rattle.protocol.specs.Client.{client_begins};
ghost use Rattle.protocol.specs.ClientTakes.{takes_reply, takes_named};
ghost use Rattle.client.specs.Doing.{doing};
ghost use Rattle.client.specs.Takes.{holding};

use crate::client::Client;
use client_calls::effects::ClientEffects;
use client_state::call::{CurrentCall, Stage};
use gfs_types::no_memory::NoMemory;
use messages::message::NameReply;

/// A Named.
pub fn takes_named(
    client: &mut Client,
    current: CurrentCall,
    number: u64,
    reply: &NameReply,
) -> Result<ClientEffects, NoMemory>
    ensures { IfOk result (λ e. takes_named (holding client.old current) current current.stage number reply.now ≡ doing client.new e) }
{
    match &current.stage {
        Stage::AskedNames => {
            if number == current.number {
                takes_reply(client, reply)
            } else {
                Ok(client.waits(current))
            }
        }
        _ => Ok(client.waits(current)),
    }
}

fn takes_reply(client: &mut Client, reply: &NameReply) -> Result<ClientEffects, NoMemory>
    ensures { IfOk result (λ e. takes_reply (client_begins client.old) reply.now ≡ doing client.new e) }
{
    match reply {
        NameReply::Opened(file, shape) => client.opens(*file, *shape),
        NameReply::Answered(answer) => {
            let answer = answer.copy(client.alloc())?;
            Ok(client.answers(answer))
        }
    }
}
