//! A client of a running cell.

ghost use Rattle.std.specs.Prelude.{◌≡◌, ◌<◌, [], IfOk, OnErr, IsSome};
ghost use Rattle.protocol.specs.Client.{stopped_client};
ghost use Rattle.protocol.specs.Conforms.{ClientCalls, ClientSteps};
ghost use Rattle.protocol.specs.Seen.{down_output};
ghost use Rattle.protocol_journal.specs.Journal.{Calls as CallTaken};
ghost use Rattle.cell_seats.specs.Slots.{IsCopyOf};
ghost use Rattle.running_nodes.specs.Standing.{ClientStands, IsCopiedOrStopped};

use cell_journal::journal_entry::StepCause;
use cell_seats::stepper::{NodeStep, Stepper};
use client::client::Client;
use gfs_types::answer::Answer;
use gfs_types::call::Call;
use gfs_types::config::Config;
use gfs_types::ids::Moment;
use gfs_types::no_memory::NoMemory;
use messages::event::{NodeInput, StepOut};
use protocol::seen::SeenList;
use protocol::step_outcome::down_output;
use std::alloc::Global;

/// A client that takes steps.
#[derive(Drop)]
pub struct ClientNode {
    pub client: Client,
}

impl Stepper for ClientNode {
    ghost stands = { λ n s. ClientStands n.client s };

    fn may_take(&self, cause: &StepCause) -> bool {
        match cause {
            StepCause::Calls(_) => self.client.may_call(),
            StepCause::Takes(_) => self.client.is_up(),
            StepCause::Restarts => false,
        }
    }

    fn step(&mut self, now: Moment, cause: &StepCause, call: Option<Call>) -> NodeStep {
        match cause {
            StepCause::Calls(asked) => calls(&mut self.client, now, asked, call),
            StepCause::Takes(input) => takes(&mut self.client, now, input),
            // It never begins again.
            StepCause::Restarts => stops(&mut self.client),
        }
    }
}

// A call, of which there is a copy.
fn calls(client: &mut Client, now: Moment, asked: &Call, copy: Option<Call>) -> NodeStep
    requires { IsCopyOf (CallTaken asked.now) copy }
    ensures steps { ClientCalls client.old now.0 asked.now result.out client.new }
    ensures seen { result.seen ≡ [] }
    ensures answer { result.answer ≡ result.out.answer }
{
    let config = client.config();
    let id = client.id();
    match copy {
        Some(call) => {
            let out = client.take_call(now, call);
            with_copy(client, config, id, out)
        }
        None => unreachable!(),
    }
}

// A message or a tick.
fn takes(client: &mut Client, now: Moment, input: &NodeInput) -> NodeStep
    ensures steps { ClientSteps client.old now.0 input.now result.out client.new }
    ensures seen { result.seen ≡ [] }
    ensures answer { result.answer ≡ result.out.answer }
{
    let config = client.config();
    let id = client.id();
    let out = client.take_step(now, input);
    with_copy(client, config, id, out)
}

// What a step gave, with a copy of its answer. Where there is no memory for the copy the client, which had these settings and this number,
// goes down in that step.
fn with_copy(client: &mut Client, config: Config, id: u64, out: StepOut) -> NodeStep
    requires { 0 < config.chunk }
    ensures step { IsCopiedOrStopped client.old client.new config id out result.out }
    ensures seen { result.seen ≡ [] }
    ensures answer { result.answer ≡ result.out.answer }
{
    let alloc = client.alloc();
    let copy = copied(alloc, &out.answer);
    match copy {
        Ok(answer) => NodeStep {
            out,
            answer,
            seen: SeenList::empty(alloc),
        },
        Err(_) => {
            client.stops(config, id);
            NodeStep {
                out: down_output(alloc),
                answer: None,
                seen: SeenList::empty(alloc),
            }
        }
    }
}

fn copied(alloc: Global, answer: &Option<Answer>) -> Result<Option<Answer>, NoMemory>
    ensures ok { IfOk result (λ a. a ≡ answer.now) }
    ensures err { OnErr result (IsSome answer.now) }
{
    match answer {
        Some(answer) => Ok(Some(answer.copy(alloc)?)),
        None => Ok(None),
    }
}

fn stops(client: &mut Client) -> NodeStep
    ensures client { client.new ≡ stopped_client client.old }
    ensures out { result.out ≡ down_output }
    ensures seen { result.seen ≡ [] }
    ensures answer { result.answer ≡ result.out.answer }
{
    let config = client.config();
    let id = client.id();
    let alloc = client.alloc();
    client.stops(config, id);
    NodeStep {
        out: down_output(alloc),
        answer: None,
        seen: SeenList::empty(alloc),
    }
}
