//! A stretch: the producers append, the reader follows the file, and the nodes begin again, all at the same time.

use crate::clients::PRODUCERS;
use crate::follower::Follower;
use crate::trial_producer::{MOST_TRIES, RECORDS, TrialProducer, pass};
use cell_run::{Cell, Node, Refusal, ServerId};
use std::alloc::Global;
use std::sync::Wait;
use std::sync::atomic::{AtomicU64, Ordering};
use std::thread;
use std::thread::Threads;
use std::time::{Clock, Duration};

pub const PATH: &str = "/log";

/// How long a node runs before the next one begins again.
const PAUSE_MS: u64 = 100;

const NODES: [Node; 4] = [
    Node::Server(ServerId(1)),
    Node::Master,
    Node::Server(ServerId(2)),
    Node::Server(ServerId(3)),
];

// Each node begins again in turn.
fn restart_nodes<R: Wait + Clock>(rt: &R, cell: &mut Cell) {
    for node in NODES {
        thread::sleep(rt, Duration::from_millis(PAUSE_MS));
        cell.restart(rt, node);
    }
}

// Follows the file until the producers are done. What nobody could serve is tried again.
fn follow_until<R: Wait + Clock>(
    rt: &R,
    alloc: Global,
    follower: &mut Follower,
    done: &AtomicU64,
) -> Result<(), Refusal> {
    for _ in rt.forever() {
        if done.load(Ordering::SeqCst) != 0 {
            return Ok(());
        }
        if let Err(refusal) = follower.follow(rt, alloc, PATH) {
            pass(rt, refusal)?;
        }
        thread::sleep(rt, Duration::from_millis(10));
    }
    unreachable!()
}

// The reader follows the file while the nodes begin again.
fn follow_meanwhile<R: Threads + Wait + Clock + Sync>(
    rt: &R,
    alloc: Global,
    cell: &mut Cell,
    follower: &mut Follower,
    done: &AtomicU64,
) -> Result<(), Refusal> {
    let (followed, _) = thread::join(
        rt,
        || follow_until(rt, alloc, follower, done),
        || restart_nodes(rt, cell),
    );
    followed
}

// The producers append, each on a thread of its own.
fn produce_all<R: Threads + Wait + Clock + Sync>(
    rt: &R,
    alloc: Global,
    producers: &mut [TrialProducer],
    done: &AtomicU64,
) {
    let produce = |_: usize, producer: &mut TrialProducer| {
        producer.outcome = producer.append_all(rt, alloc, PATH, RECORDS);
    };
    thread::for_each_mut(rt, producers, PRODUCERS as usize, &produce);
    done.store(1, Ordering::SeqCst);
}

/// Runs a stretch.
pub fn run_stretch<R: Threads + Wait + Clock + Sync>(
    rt: &R,
    alloc: Global,
    cell: &mut Cell,
    producers: &mut [TrialProducer],
    follower: &mut Follower,
) -> Result<(), Refusal> {
    let done = AtomicU64::new(0);
    let (_, followed) = thread::join(
        rt,
        || produce_all(rt, alloc, producers, &done),
        || follow_meanwhile(rt, alloc, cell, follower, &done),
    );
    followed
}

/// How a reader reads on.
#[derive(Clone, Copy)]
pub enum Reading {
    Follows,
    All,
}

/// Follows the file to its end, or reads all, once more where nobody could serve.
pub fn read_on<R: Wait + Clock>(
    rt: &R,
    alloc: Global,
    follower: &mut Follower,
    reading: Reading,
) -> Result<(), Refusal> {
    for _ in 0..MOST_TRIES {
        let outcome = match reading {
            Reading::Follows => follower.follow(rt, alloc, PATH),
            Reading::All => follower.read_all(rt, alloc, PATH),
        };
        match outcome {
            Ok(()) => return Ok(()),
            Err(refusal) => pass(rt, refusal)?,
        }
    }
    Err(Refusal::Unknown)
}
