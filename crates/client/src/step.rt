//! A client's step.

ghost use Rattle.std.specs.Prelude.{◌≡◌, [], None, IfOk};
ghost use Rattle.protocol.specs.Client.{client_begins};
ghost use Rattle.protocol.specs.ClientStep.{takes_at, client_does, client_goes};
ghost use Rattle.protocol.specs.Conforms.{ClientSteps};
ghost use Rattle.client.specs.Doing.{doing};
ghost use Rattle.client.specs.Takes.{holding};

use crate::client::Client;
use crate::takes::takes;
use crate::ticks::{completes_again, ticks_at};
use client_calls::effects::ClientEffects;
use client_state::call::{CurrentCall, Stage};
use gfs_types::ids::Moment;
use gfs_types::no_memory::NoMemory;
use messages::event::{NodeInput, StepOut};
use messages::message::Message;
use messages::message_lists::MessageList;

/// What a client takes a step on.
pub type ClientIn = NodeInput;

impl Client {
    /// A step on a message or on a tick. One that is down does nothing, and so does one with a counter at its limit. For want of
    /// memory it goes down.
    pub fn step(&mut self, now: Moment, input: ClientIn) -> StepOut
        ensures { ClientSteps self.old now.0 input result self.new }
    {
        self.take_step(now, &input)
    }

    /// The same; its caller keeps the input.
    #[tactic(auto, using(crate::proofs::Steps::step_did, crate::proofs::Steps::step_lost, crate::proofs::Steps::step_not_taken))]
    pub fn take_step(&mut self, now: Moment, input: &ClientIn) -> StepOut
        ensures { ClientSteps self.old now.0 input.now result self.new }
    {
        if !self.may_step() {
            return empty_output(self, false);
        }
        let config = self.config();
        let id = self.id();
        let Ok(effects) = try_step(self, now, input) else {
            self.stops(config, id);
            return empty_output(self, true);
        };
        effects.into_out()
    }
}

fn empty_output(client: &Client, down: bool) -> StepOut
    ensures { result ≡ record { sent = []; answer = None; down = down } }
{
    StepOut {
        sent: MessageList::empty(client.alloc()),
        answer: None,
        down,
    }
}

fn try_step(client: &mut Client, now: Moment, input: &NodeInput) -> Result<ClientEffects, NoMemory>
    ensures { IfOk result (λ e. client_goes client.old now.0 input.now ≡ doing client.new e) }
{
    client.move_clock(now);
    take_input(client, input)
}

/// A message or a tick comes to a client with or without an open call.
fn take_input(client: &mut Client, input: &NodeInput) -> Result<ClientEffects, NoMemory>
    ensures { IfOk result (λ e. client_does (client_begins client.old) input.now client.old.current ≡ doing client.new e) }
{
    let Some(current) = client.take_current() else {
        return Ok(client.rests());
    };
    match input {
        NodeInput::Deliver(message) => takes_at(client, current, message),
        NodeInput::Tick => ticks_at(client, current),
    }
}

/// A message comes to a client with an open call.
fn takes_at(
    client: &mut Client,
    current: CurrentCall,
    message: &Message,
) -> Result<ClientEffects, NoMemory>
    ensures { IfOk result (λ e. takes_at (holding client.old current) current message.now current.stage ≡ doing client.new e) }
{
    match &current.stage {
        Stage::HasAnswer(_) => Ok(completes_again(client, current)),
        _ => takes(client, current, &message.body),
    }
}
