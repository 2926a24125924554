//! What the threads of a running cell do.

use cell_seats::gate::Gate;
use cell_seats::mailbox_wait::next_input;
use cell_seats::mailboxes::{Input, MailboxItem};
use cell_seats::node_lock::NodeLock;
use cell_seats::shared_state::{CLOSING, MOST_CLIENTS, STARTING, SharedState};
use cell_seats::stepper::Stepper;
use crossbeam_channel::{Receiver, RecvTimeoutError};
use gfs_types::ids::{ClientId, Node, ServerId};
use std::sync::Wait;
use std::sync::atomic::Ordering;
use std::thread;
use std::time::{Clock, Duration};

/// How long the ticker waits before it ticks.
const TICK_MS: u64 = 100;

/// Takes each item of a node's mailbox, until it is told to stop. Before an item the node begins again once, where it was asked to do so more
/// often than it did.
pub fn serve<R: Wait + Clock, N: Stepper + Drop, G: Gate>(
    rt: &R,
    shared: &SharedState,
    node: Node,
    lock: &NodeLock<N>,
    inbox: &Receiver<MailboxItem>,
    gate: &G,
) {
    wait_to_begin(rt, shared);
    let mut restarts: u64 = 0;
    for _ in rt.forever() {
        let Some(input) = next_input(rt, inbox) else {
            break;
        };
        if shared.controls.restarts(node) != restarts && lock.act(rt, Input::Restart, gate) {
            restarts = restarts.wrapping_add(1);
        }
        lock.act(rt, input, gate);
    }
}

// Waits until each node of a parked cell that goes on stands in its lock.
fn wait_to_begin<R: Wait + Clock>(rt: &R, shared: &SharedState) {
    for _ in rt.forever() {
        if shared.closing.load(Ordering::SeqCst) != STARTING {
            break;
        }
        thread::sleep(rt, Duration::from_millis(1));
    }
}

/// Puts ticks into the mailboxes, and while the cell closes the word to stop, of which one may be lost, until the sending end is gone.
pub fn tick<R: Wait + Clock>(rt: &R, shared: &SharedState, servers: u16, stopped: &Receiver<()>) {
    for _ in rt.forever() {
        match stopped.recv_timeout(rt, Duration::from_millis(TICK_MS)) {
            Err(RecvTimeoutError::Timeout) => {}
            _ => break,
        }
        match shared.closing.load(Ordering::SeqCst) {
            0 => tick_all(rt, shared, servers),
            CLOSING => stop_all(rt, shared, servers),
            _ => {}
        }
    }
}

// A client gets ticks while it is in a call.
fn tick_all<R: Wait>(rt: &R, shared: &SharedState, servers: u16) {
    let tick = MailboxItem::Take(Input::Tick);
    put_to_nodes(rt, shared, servers, tick);
    let calling = shared.calling.load(Ordering::SeqCst);
    for before in 0..MOST_CLIENTS {
        if (calling >> before) & 1 == 1 {
            let client = Node::Client(ClientId(before + 1));
            shared.senders.put(rt, client, tick);
        }
    }
}

/// Tells the nodes and the clients to stop.
pub fn stop_all<R: Wait>(rt: &R, shared: &SharedState, servers: u16) {
    put_to_nodes(rt, shared, servers, MailboxItem::Stop);
    for before in 0..MOST_CLIENTS {
        let client = Node::Client(ClientId(before + 1));
        shared.senders.put(rt, client, MailboxItem::Stop);
    }
}

fn put_to_nodes<R: Wait>(rt: &R, shared: &SharedState, servers: u16, item: MailboxItem) {
    shared.senders.put(rt, Node::Master, item);
    for before in 0..servers {
        let server = Node::Server(ServerId(before + 1));
        shared.senders.put(rt, server, item);
    }
}

/// Waits until no client is in a call.
pub fn wait_for_clients<R: Wait + Clock>(rt: &R, shared: &SharedState) {
    for _ in rt.forever() {
        if shared.calling.load(Ordering::SeqCst) == 0 {
            break;
        }
        thread::sleep(rt, Duration::from_millis(1));
    }
}
