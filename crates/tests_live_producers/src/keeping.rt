//! A cell that keeps the last entries of its journal.

use crate::cells::small;
use cell_run::Retention;
use cell_run::cell::Cell;
use cell_seats::gate::{Gate, Kind};
use cell_seats::journal::Journal;
use gfs_types::config::Config;
use gfs_types::ids::Node;
use gfs_types::lists::Text;
use script::kinds::Kind as MessageKind;
use std::alloc::{AllocError, Global};
use std::sync::atomic::{AtomicU64, Ordering};
use std::sync::{Arc, Wait};
use std::test::*;
use std::thread;
use std::time::{Clock, Duration};

/// How many entries stay, and for how many milliseconds the master is held up then: the ticks of that time are more.
const FEW: u32 = 8;

const HELD_MS: u64 = 500;

/// Holds up the master once, before it takes a Look.
#[derive(Drop)]
struct LookGate<R: Clock + Copy + Drop> {
    clock: R,
    held: Arc<AtomicU64>,
}

impl<R: Clock + Copy + Drop> Clone for LookGate<R> {
    fn clone(&self) -> Result<LookGate<R>, AllocError> {
        Ok(LookGate {
            clock: self.clock,
            held: Arc::try_clone(&self.held)?,
        })
    }
}

impl<R: Clock + Copy + Drop> Gate for LookGate<R> {
    fn before(&self, node: Node, kind: Kind) {
        if node != Node::Master || kind != Kind::Message(MessageKind::Look) {
            return;
        }
        if self.held.fetch_add(1, Ordering::SeqCst) == 0 {
            thread::sleep(&self.clock, Duration::from_millis(HELD_MS));
        }
    }
}

// Whether a new client is told what the root has.
fn lists_root<R: Wait + Clock>(rt: &R, alloc: Global, cell: &mut Cell) -> bool {
    let Ok(path) = Text::from_str("/", alloc) else {
        return false;
    };
    match cell.client() {
        Ok(mut seat) => {
            let is_answered = seat.list(rt, path).is_ok();
            drop(seat);
            is_answered
        }
        Err(_) => false,
    }
}

// Whether the last entries of a journal stay, so many, and no others.
fn keeps_last(journal: &Journal, kept: usize) -> bool {
    let first = journal.len().saturating_sub(kept);
    let last = journal.len().saturating_sub(1);
    first > 0
        && journal.first() == first
        && journal.event(first.saturating_sub(1)).is_none()
        && journal.event(first).is_some()
        && journal.event(last).is_some()
}

#[test]
fn a_message_that_comes_too_late_is_lost(rt: HostRuntime) -> Result<(), Fail> {
    let alloc = rt.alloc();
    let config = Config {
        attempt_ms: 100,
        attempts: 16,
        ..small(1)
    };
    let gate = LookGate {
        clock: rt,
        held: Arc::new(alloc, AtomicU64::new(0))?,
    };
    let retention = Retention::Last(FEW);
    let mut cell = Cell::start_retaining(rt, alloc, config, 1, retention, gate)?;
    // While the master is held up there are ticks of the client and the server; a later attempt is answered.
    let is_answered = lists_root(&rt, alloc, &mut cell);
    let lost = cell.lost();
    let journal = cell.close(&rt);
    let are_kept = keeps_last(&journal, FEW as usize);
    drop(journal);
    assert!(rt; is_answered);
    assert!(rt; lost > 0);
    assert!(rt; are_kept);
    Ok(())
}
