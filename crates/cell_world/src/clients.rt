//! Steps and calls of the clients.

ghost use Rattle.std.specs.Prelude.{◌≡◌, ◌⊎◌, ◌<◌, suc, if◌then◌else◌, true, length, IfOk, MatchOption};
ghost use Rattle.std.specs.Option.{option_copied};
ghost use Rattle.server_cell.specs.Inputs.{input_of};
ghost use Rattle.protocol.specs.Client.{stopped_client};
ghost use Rattle.protocol.specs.ClientStep.{may_call, may_step};
ghost use Rattle.protocol.specs.Conforms.{ClientSteps};
ghost use Rattle.protocol.specs.Seen.{down_output, no_output};
ghost use Rattle.cell_world.specs.Batches.{message_named};
ghost use Rattle.cell_world.specs.Steps.{StepsAt, ClientStepsSo, ClientCallsSo, IsUpAt};

use crate::numbered::place_of;
use crate::record::CellRecord;
use client::client::Client;
use gfs_types::answer::Answer;
use gfs_types::call::Call;
use gfs_types::ids::{ClientId, Moment};
use gfs_types::no_memory::NoMemory;
use messages::event::{NodeInput, StepOut};
use messages::message::Message;
use protocol::seen::SeenList;
use protocol::step_outcome::{down_output, no_output};
use std::alloc::Global;

/// The place of a client's number.
pub(crate) fn client_place(clients: &Vec<Client>, id: ClientId) -> Option<usize>
    ensures { MatchOption result ((id.0 ≡ 0) ⊎ (length clients.now.items < id.0)) (λ place. (id.0 ≡ suc place) × (place < length clients.now.items)) }
{
    place_of(id.0, clients.as_slice().len())
}

pub(crate) fn is_client_up(clients: &Vec<Client>, place: usize) -> bool
    requires { place < length clients.now.items }
    ensures { IsUpAt (λ s. s.up) clients.now.items place result }
{
    clients[place].is_up()
}

pub(crate) fn client_may_call(clients: &Vec<Client>, place: usize) -> bool
    requires { place < length clients.now.items }
    ensures { IsUpAt may_call clients.now.items place result }
{
    clients[place].may_call()
}

/// The client at a place takes a step on the message of a number, or on a tick. For want of memory it goes down.
pub(crate) fn client_steps(
    clients: &mut Vec<Client>,
    place: usize,
    kept: &mut CellRecord,
    given: Option<u64>,
    now: Moment,
) -> Option<Answer>
    requires place { place < length clients.old.items }
    requires up { IsUpAt (λ s. s.up) clients.old.items place true }
    ensures { StepsAt (λ s out seen t. ClientStepsSo s now.0 (input_of (message_named kept.old.network.messages given)) out seen t) clients.old.items place kept.old result clients.new.items kept.new }
{
    let alloc = clients[place].alloc();
    if kept.reserve().is_err() {
        give_up(&mut clients[place]);
        return None;
    }
    let StepOut { sent, answer, .. } = steps_on(
        &mut clients[place],
        now,
        kept.network.named(given),
    );
    kept.takes(sent, SeenList::empty(alloc));
    answer
}

/// A call is made of the client at a place. For want of memory it goes down.
pub(crate) fn client_calls(
    clients: &mut Vec<Client>,
    place: usize,
    kept: &mut CellRecord,
    call: Call,
    now: Moment,
) -> Option<Answer>
    requires place { place < length clients.old.items }
    requires may { IsUpAt may_call clients.old.items place true }
    ensures { StepsAt (λ s out seen t. ClientCallsSo s now.0 call out seen t) clients.old.items place kept.old result clients.new.items kept.new }
{
    let alloc = clients[place].alloc();
    if kept.reserve().is_err() {
        stop(&mut clients[place]);
        return None;
    }
    let StepOut { sent, answer, .. } = clients[place].call(now, call);
    kept.takes(sent, SeenList::empty(alloc));
    answer
}

// A step on a message, or on a tick. It is lost where a copy of the message finds no memory.
fn steps_on(client: &mut Client, now: Moment, message: Option<&Message>) -> StepOut
    ensures { ClientSteps client.old now.0 (input_of (option_copied message.entry)) result client.new }
{
    let alloc = client.alloc();
    let Ok(input) = copied(alloc, message) else {
        return lost(alloc, give_up(client));
    };
    client.step(now, input)
}

// A step is lost for want of memory, where one is taken. Whether one was.
fn give_up(client: &mut Client) -> bool
    ensures down { result ≡ may_step client.old }
    ensures client { client.new ≡ (if may_step client.old then stopped_client client.old else client.old) }
{
    let is_taken = client.may_step();
    if is_taken {
        stop(client);
    }
    is_taken
}

// What a step gives that was lost, or that was none.
fn lost(alloc: Global, is_taken: bool) -> StepOut
    ensures { result ≡ (if is_taken then down_output else no_output) }
{
    if is_taken {
        down_output(alloc)
    } else {
        no_output(alloc)
    }
}

fn stop(client: &mut Client)
    ensures { client.new ≡ stopped_client client.old }
{
    let config = client.config();
    let id = client.id();
    client.stops(config, id);
}

fn copied(alloc: Global, message: Option<&Message>) -> Result<NodeInput, NoMemory>
    ensures { IfOk result (λ input. input ≡ input_of (option_copied message.entry)) }
{
    match message {
        Some(message) => Ok(NodeInput::Deliver(message.copy(alloc)?)),
        None => Ok(NodeInput::Tick),
    }
}
