//! A Grant that a server gets again after it began again.

use crate::recorded::{Recorded, record_row};
use crate::rows::Row;
use cell_simulator::cell::SimulatedCell;
use gfs_types::ids::{Moment, Node, ServerId};
use gfs_types::refusal::Refusal;
use messages::event::Event;
use messages::message::{Body, Message};
use script::script_fault::ScriptFault;
use std::alloc::Global;

/// One record.
const RECORD: Row = Row {
    lease_ms: 60_000,
    path: "/f",
    script: "c1 create /f\nc1 open /f\nc1 append 1 a*13\n",
    printed: "c1 done\nc1 fd 1\nc1 at 0\n",
};

const PRIMARY: ServerId = ServerId(1);

/// The moment of all these events.
const NOW: Moment = Moment(0);

/// A kind of message to the primary.
#[derive(Clone, Copy)]
pub(crate) enum Wanted {
    Grant,
    Mutate,
}

/// The number of the first message of a kind to the primary, behind that of another one; 0 where there is none.
pub(crate) fn next_number(recorded: &Recorded, before: u64, wanted: Wanted) -> u64 {
    for number in before.saturating_add(1)..=recorded.message_count() {
        if let Some(message) = recorded.message(number) {
            if message.receiver == Node::Server(PRIMARY) && is_wanted(wanted, &message.body) {
                return number;
            }
        }
    }
    0
}

fn is_wanted(wanted: Wanted, body: &Body) -> bool {
    match wanted {
        Wanted::Grant => matches!(body, Body::Grant { .. }),
        Wanted::Mutate => matches!(body, Body::Mutate { .. }),
    }
}

/// Whether the message that was sent last is this refusal.
pub(crate) fn is_refused(recorded: &Recorded, wanted: Refusal) -> bool {
    match recorded.message(recorded.message_count()) {
        Some(
            Message {
                body: Body::Refused { refusal, .. },
                ..
            },
        ) => *refusal == wanted,
        _ => false,
    }
}

/// Whether the last message is the answer to a settled attempt.
pub(crate) fn is_done(recorded: &Recorded) -> bool {
    match recorded.message(recorded.message_count()) {
        Some(
            Message {
                body: Body::Done { .. },
                ..
            },
        ) => true,
        _ => false,
    }
}

/// A message comes once more.
pub(crate) fn deliver(cell: &mut Recorded, number: u64) {
    drop(cell.step(Event::Deliver { number, now: NOW }));
}

/// Whether a repeated Mutate is answered as before, and refused once its primary began again, though the Grant comes once more.
fn is_lost_for_good(alloc: Global) -> Result<bool, ScriptFault> {
    let Some(recorded) = record_row(alloc, &RECORD)? else {
        return Ok(false);
    };
    let mut cell = recorded;
    let grant = next_number(&cell, 0, Wanted::Grant);
    let mutate = next_number(&cell, 0, Wanted::Mutate);
    deliver(&mut cell, mutate);
    let was_done = is_done(&cell);
    drop(cell.step(Event::Restart {
        node: Node::Server(PRIMARY),
        now: NOW,
    }));
    let sent = cell.message_count();
    deliver(&mut cell, grant);
    let is_passed_over = cell.message_count() == sent;
    deliver(&mut cell, mutate);
    let is_lost = is_refused(&cell, Refusal::NoLease);
    drop(cell);
    Ok(grant > 0 && mutate > 0 && was_done && is_passed_over && is_lost)
}

#[test]
fn a_grant_that_comes_again_counts_for_nothing(rt: HostRuntime) {
    assert!(rt; matches!(is_lost_for_good(rt.alloc()), Ok(true)));
}
