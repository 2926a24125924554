//! Answers of the master to asks for a chunk.

ghost use Rattle.std.specs.Prelude.{◌≡◌, [], false, None, IfOk};
ghost use Rattle.protocol.specs.Client.{client_begins};
ghost use Rattle.protocol.specs.ClientTakes.{gets, takes_wait, told_none, told_location, told, takes_told};
ghost use Rattle.client.specs.Doing.{doing};
ghost use Rattle.client.specs.Takes.{holding, waits_to_ask};

use crate::client::Client;
use crate::read::gets;
use bytes::Bytes;
use client_calls::effects::ClientEffects;
use client_state::call::{CurrentCall, Stage};
use gfs_types::answer::Answer;
use gfs_types::call::Call;
use gfs_types::no_memory::NoMemory;
use messages::message::Location;

/// It waits for a tick, and then asks again.
fn waits_to_ask(
    client: &mut Client,
    mut current: CurrentCall,
    is_nobody_there: bool,
) -> ClientEffects
    ensures { waits_to_ask (client_begins client.old) current is_nobody_there ≡ doing client.new result }
{
    current.stage = Stage::MustAskAgain;
    current.saw_no_holder = is_nobody_there;
    current.is_nobody_serving = is_nobody_there;
    client.waits(current)
}

/// A Wait.
pub fn takes_wait(client: &mut Client, current: CurrentCall, number: u64) -> ClientEffects
    ensures { takes_wait (holding client.old current) current current.stage number ≡ doing client.new result }
{
    match &current.stage {
        Stage::AskedWhere(asked) => {
            if *asked == number {
                waits_to_ask(client, current, false)
            } else {
                client.waits(current)
            }
        }
        _ => client.waits(current),
    }
}

/// A Told.
pub fn takes_told(
    client: &mut Client,
    current: CurrentCall,
    number: u64,
    location: &Option<Location>,
) -> Result<ClientEffects, NoMemory>
    ensures { IfOk result (λ e. takes_told (holding client.old current) current current.stage number location.now ≡ doing client.new e) }
{
    match &current.stage {
        Stage::AskedWhere(asked) => {
            if *asked == number {
                told(client, current, location)
            } else {
                Ok(client.waits(current))
            }
        }
        _ => Ok(client.waits(current)),
    }
}

#[tactic(auto, using(crate::proofs::Held::located_held))]
fn told(
    client: &mut Client,
    current: CurrentCall,
    location: &Option<Location>,
) -> Result<ClientEffects, NoMemory>
    ensures { IfOk result (λ e. told (holding client.old current) current location.now ≡ doing client.new e) }
{
    match location {
        None => told_none(client, current),
        Some(location) => told_location(client, current, location),
    }
}

/// A read finds no chunk.
#[tactic(auto, using(crate::proofs::Held::gets_held))]
fn reads_nothing(client: &mut Client, mut current: CurrentCall) -> Result<ClientEffects, NoMemory>
    ensures { IfOk result (λ e. gets (holding client.old current) (record current { saw_no_holder = false }) [] None ≡ doing client.new e) }
{
    current.saw_no_holder = false;
    let found = Bytes::new();
    gets(client, current, &found, None)
}

/// There is no such chunk.
fn told_none(client: &mut Client, current: CurrentCall) -> Result<ClientEffects, NoMemory>
    ensures { IfOk result (λ e. told_none (holding client.old current) current current.asked ≡ doing client.new e) }
{
    match &current.asked {
        Call::Read(_, _, _) => reads_nothing(client, current),
        Call::Length(_) => Ok(client.completes(current, Answer::Length(0))),
        _ => Ok(client.waits(current)),
    }
}

/// A chunk's location; where it has no holder this is noted, and the client waits.
fn told_location(
    client: &mut Client,
    mut current: CurrentCall,
    location: &Location,
) -> Result<ClientEffects, NoMemory>
    ensures { IfOk result (λ e. told_location (client_begins client.old) current location.now ≡ doing client.new e) }
{
    if location.holders.as_slice().is_empty() {
        return Ok(waits_to_ask(client, current, true));
    }
    client.keeps(current.file, location)?;
    current.told = client.now();
    current.saw_no_holder = false;
    current.is_nobody_serving = false;
    client.goes_on_at(current, location)
}
