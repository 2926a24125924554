//! Waiting for an item of a mailbox.

use crate::mailboxes::{Input, MailboxItem};
use crossbeam_channel::{Receiver, RecvTimeoutError};
use std::sync::Wait;
use std::thread::yield_now;
use std::time::{Clock, Duration};

/// How often whoever finds its mailbox empty looks again, and lets other threads run, before it sleeps: a sleeper takes longer to be woken
/// than most items take to come.
const LOOKS: u32 = 200;

/// How many microseconds a client in a call waits for an item at first, before it takes a tick by itself. An append whose chunk is full
/// goes on at ticks.
pub(crate) const FIRST_WAIT: u64 = 500;

/// How many times longer the next wait is.
const SLOWER: u64 = 4;

/// How long a wait becomes at most: longer than it takes to the ticker's next tick.
const LONGEST_WAIT: u64 = 200_000;

/// What a node takes its next step on. None: it is told to stop.
pub fn next_input(rt: &impl Wait, inbox: &Receiver<MailboxItem>) -> Option<Input> {
    let item = match item_soon(rt, inbox) {
        Some(item) => Some(item),
        None => inbox.recv(rt).ok(),
    };
    match item {
        Some(MailboxItem::Take(input)) => Some(input),
        _ => None,
    }
}

/// What a client in a call takes its next step on: a tick where no item came for so many microseconds, which become more then. None: it is
/// told to stop.
pub(crate) fn input_within<R: Wait + Clock>(
    rt: &R,
    inbox: &Receiver<MailboxItem>,
    wait: &mut u64,
) -> Option<Input> {
    let found = match item_soon(rt, inbox) {
        Some(item) => Ok(item),
        None => inbox.recv_timeout(rt, Duration::from_micros(*wait)),
    };
    match found {
        Ok(MailboxItem::Take(input)) => Some(input),
        Err(RecvTimeoutError::Timeout) => {
            *wait = wait.saturating_mul(SLOWER).min(LONGEST_WAIT);
            Some(Input::Tick)
        }
        _ => None,
    }
}

// The next item, if it comes before long.
fn item_soon(rt: &impl Wait, inbox: &Receiver<MailboxItem>) -> Option<MailboxItem> {
    for _ in 0..LOOKS {
        if let Ok(item) = inbox.try_recv(rt) {
            return Some(item);
        }
        yield_now();
    }
    None
}
