//! Nodes that begin again.

use crate::cells::{small, wait_for};
use crate::producers::{Producer, count_kept, produce_all, producers_of};
use cell_journal::journal_entry::StepCause;
use cell_run::cell::Cell;
use cell_seats::gate::{Gate, Kind};
use cell_seats::journal::Journal;
use gfs_types::config::Config;
use gfs_types::ids::{Node, ServerId};
use std::alloc::{AllocError, Global};
use std::sync::atomic::{AtomicU64, Ordering};
use std::sync::{Arc, Wait};
use std::test::*;
use std::thread;
use std::thread::Threads;
use std::time::{Clock, Duration};

const NODES: [Node; 3] = [
    Node::Master,
    Node::Server(ServerId(1)),
    Node::Server(ServerId(2)),
];

/// How many producers append.
const PRODUCERS: u64 = 4;

/// How often each node is asked to begin again while producers append.
const ROUNDS: u64 = 10;

/// How many records each producer appends in a round.
const RECORDS: u64 = 3;

/// Counts how often nodes begin again.
#[derive(Drop)]
struct RestartGate {
    restarts: Arc<AtomicU64>,
}

impl Clone for RestartGate {
    fn clone(&self) -> Result<RestartGate, AllocError> {
        Ok(RestartGate {
            restarts: Arc::try_clone(&self.restarts)?,
        })
    }
}

impl Gate for RestartGate {
    fn before(&self, _node: Node, kind: Kind) {
        if kind == Kind::Restart {
            self.restarts.fetch_add(1, Ordering::SeqCst);
        }
    }
}

fn is_restart(cause: &StepCause) -> bool {
    match cause {
        StepCause::Restarts => true,
        _ => false,
    }
}

// Each node is asked to begin again, each so many milliseconds after the one before it.
fn restart_in_turn<R: Wait + Clock>(rt: &R, cell: &mut Cell, pause: u64) {
    for node in NODES {
        thread::sleep(rt, Duration::from_millis(pause));
        cell.restart(rt, node);
    }
}

// The producers append at the same time as each node is asked to begin again.
fn produce_meanwhile<R: Threads + Wait + Clock + Sync>(
    rt: &R,
    alloc: Global,
    cell: &mut Cell,
    producers: &mut [Producer],
    pause: u64,
) {
    thread::join(
        rt,
        || produce_all(rt, alloc, producers, RECORDS),
        || restart_in_turn(rt, cell, pause),
    );
}

// How many records were answered before each node begins again, or while each does so over and over, if each of them is read back after that.
fn kept<R: Threads + Wait + Clock + Sync>(
    rt: &R,
    alloc: Global,
    cell: &mut Cell,
    restarts: &AtomicU64,
    rounds: u64,
) -> Option<usize> {
    let (mut reader, mut all) = producers_of(rt, alloc, cell, PRODUCERS)?;
    if rounds == 1 {
        produce_all(rt, alloc, all.as_mut_slice(), 10);
        restart_in_turn(rt, cell, 0);
    } else {
        for round in 0..rounds {
            produce_meanwhile(rt, alloc, cell, all.as_mut_slice(), round.wrapping_mul(3));
        }
    }
    wait_for(rt, restarts, rounds.wrapping_mul(3));
    let count = count_kept(rt, alloc, &mut reader, all.as_slice());
    drop(all);
    drop(reader);
    count
}

// How often a node began again.
fn restarts_of(journal: &Journal, node: Node) -> u64 {
    let mut count: u64 = 0;
    for place in 0..journal.len() {
        if let Some(entry) = journal.event(place) {
            if entry.node() == node && is_restart(entry.cause()) {
                count = count.wrapping_add(1);
            }
        }
    }
    count
}

// Whether each node began again so often.
fn have_begun_again(journal: &Journal, count: u64) -> bool {
    for node in NODES {
        if restarts_of(journal, node) != count {
            return false;
        }
    }
    true
}

// The same on a cell of two servers; none where a node didn't begin again so often.
fn kept_by<R: Threads + Wait + Clock + Copy + Send + Sync + 'static>(
    rt: R,
    alloc: Global,
    config: Config,
    rounds: u64,
) -> Option<usize> {
    let restarts = Arc::new(alloc, AtomicU64::new(0)).ok()?;
    let gate = RestartGate {
        restarts: Arc::try_clone(&restarts).ok()?,
    };
    let mut cell = Cell::start(rt, alloc, config, 2, gate).ok()?;
    let count = kept(&rt, alloc, &mut cell, &restarts, rounds);
    let journal = cell.close(&rt);
    let have_begun = have_begun_again(&journal, rounds);
    drop(journal);
    if have_begun { count } else { None }
}

#[test]
fn each_node_begins_again(rt: HostRuntime) {
    assert!(rt; kept_by(rt, rt.alloc(), small(2), 1) == Some(40));
}

#[test]
fn nodes_begin_again_at_any_time(rt: HostRuntime) {
    // Attempts are soon over, and clocks taken to be close. A master that begins again reads half of its log in one step, which has to take no longer than the
    // clock bound, in a slow build too: the log is small.
    let config = Config {
        attempt_ms: 300,
        skew_ms: 500,
        log_bytes: 262_144,
        lease_ms: 2_000,
        ..small(2)
    };
    // Most of the 120 are answered: in each round each node begins again once, and then no more.
    assert!(rt; kept_by(rt, rt.alloc(), config, ROUNDS) > Some(60));
}
