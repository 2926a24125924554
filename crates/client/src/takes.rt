//! A message that comes to a client with an open call.

ghost use Rattle.std.specs.Prelude.{◌≡◌, IfOk};
ghost use Rattle.protocol.specs.ClientTakes.{client_takes};
ghost use Rattle.client.specs.Doing.{doing};
ghost use Rattle.client.specs.Takes.{holding};

use crate::client::Client;
use crate::located::{takes_told, takes_wait};
use crate::named::takes_named;
use crate::placed::{takes_done, takes_pushed};
use crate::read::{takes_bytes, takes_len_is};
use crate::refused::takes_refused;
use client_calls::effects::ClientEffects;
use client_state::call::CurrentCall;
use gfs_types::no_memory::NoMemory;
use messages::message::Body;

/// The client takes it; `current` is the call, which the client doesn't hold meanwhile. For want of memory both are left in
/// some state.
pub fn takes(
    client: &mut Client,
    current: CurrentCall,
    body: &Body,
) -> Result<ClientEffects, NoMemory>
    ensures { IfOk result (λ e. client_takes (holding client.old current) current body.now ≡ doing client.new e) }
{
    match body {
        Body::Named { call_number, reply } => takes_named(client, current, *call_number, reply),
        Body::Told { number, location } => takes_told(client, current, *number, location),
        Body::Wait { number } => Ok(takes_wait(client, current, *number)),
        Body::Refused { number, refusal } => takes_refused(client, current, *number, *refusal),
        Body::Pushed { data } => takes_pushed(client, current, *data),
        Body::Done { data, place } => takes_done(client, current, *data, *place),
        Body::Bytes { number, bytes } => takes_bytes(client, current, *number, bytes),
        Body::LenIs { number, count } => Ok(takes_len_is(client, current, *number, *count)),
        _ => Ok(client.waits(current)),
    }
}
