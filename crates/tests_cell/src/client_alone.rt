//! Calls of a client alone.

use client::client::Client;
use gfs_types::answer::Answer;
use gfs_types::call::Call;
use gfs_types::config::Config;
use gfs_types::ids::{ClientId, Fd, Moment};
use gfs_types::lists::Text;
use gfs_types::no_memory::NoMemory;
use gfs_types::refusal::Refusal;
use messages::event::{NodeInput, StepOut};
use std::alloc::Global;

fn new_client(alloc: Global) -> Result<Client, NoMemory> {
    let config = Config::default();
    if config.chunk == 0 {
        return Err(NoMemory);
    }
    Client::new(alloc, config, ClientId(1))
}

/// Whether a step sent so many messages, and neither answered a call nor put its client down. What owns a step's outcome calls `drop`: a drop at the end of a
/// scope is proved anew at each place.
fn has_sent_alone(out: StepOut, count: usize) -> bool {
    let has_sent = out.sent.len() == count && out.answer.is_none() && !out.down;
    drop(out);
    has_sent
}

/// Whether a call that comes while another is open is passed over: its moment counts for nothing, and the other one stays open.
fn passes_over(alloc: Global, client: &mut Client) -> Result<bool, NoMemory> {
    let path = Text::from_str("/f", alloc)?;
    let opens = has_sent_alone(client.call(Moment(5), Call::Open(path)), 1);
    let closes = has_sent_alone(client.call(Moment(9), Call::Close(Fd(1))), 0);
    let stays = !client.may_call() && client.now().0 == 5;
    let ticks = has_sent_alone(client.step(Moment(9), NodeInput::Tick), 0);
    let goes_on = !client.may_call() && client.now().0 == 9;
    Ok(opens && closes && stays && ticks && goes_on)
}

fn is_passed_over(alloc: Global) -> Result<bool, NoMemory> {
    let mut client = new_client(alloc)?;
    let is_passed_over = passes_over(alloc, &mut client);
    drop(client);
    is_passed_over
}

/// Whether a call on a descriptor that isn't open is answered in its own step, and the next call may come.
fn is_refused_at_once(alloc: Global) -> Result<bool, NoMemory> {
    let mut client = new_client(alloc)?;
    let out = client.call(Moment(1), Call::Length(Fd(7)));
    let is_refused = matches!(&out.answer, Some(Answer::Refused(Refusal::BadFd)));
    let has_sent = out.sent.len() > 0;
    let may_call = client.may_call();
    drop(out);
    drop(client);
    Ok(is_refused && !has_sent && may_call)
}

/// Whether a client that is down takes neither a call nor a tick.
fn is_idle_when_down(alloc: Global) -> Result<bool, NoMemory> {
    let mut client = new_client(alloc)?;
    let config = client.config();
    let id = client.id();
    client.stops(config, id);
    let calls = has_sent_alone(client.call(Moment(1), Call::Close(Fd(1))), 0);
    let ticks = has_sent_alone(client.step(Moment(1), NodeInput::Tick), 0);
    let is_idle = !client.is_up() && client.now().0 == 0;
    drop(client);
    Ok(calls && ticks && is_idle)
}

#[test]
fn a_call_while_another_is_open_is_passed_over(rt: HostRuntime) {
    assert!(rt; matches!(is_passed_over(rt.alloc()), Ok(true)));
}

#[test]
fn a_call_on_no_open_descriptor_is_refused_at_once(rt: HostRuntime) {
    assert!(rt; matches!(is_refused_at_once(rt.alloc()), Ok(true)));
}

#[test]
fn a_client_that_is_down_takes_no_call(rt: HostRuntime) {
    assert!(rt; matches!(is_idle_when_down(rt.alloc()), Ok(true)));
}
