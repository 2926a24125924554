//! One server's read is held up until another's was answered.

use crate::cells::{small, wait_for};
use crate::producers::{Found, append, create, look, open};
use cell_run::cell::{Cell, Seat};
use cell_seats::gate::{Gate, Kind};
use gfs_types::ids::{Node, ServerId};
use script::kinds::Kind as MessageKind;
use std::alloc::{AllocError, Global};
use std::sync::atomic::{AtomicU64, Ordering};
use std::sync::{Arc, Wait};
use std::test::*;
use std::thread;
use std::thread::Threads;
use std::time::Clock;

/// Whether the other reader was answered, and how many reads were held.
#[derive(Drop)]
struct Signals {
    answered: AtomicU64,
    held: AtomicU64,
}

/// Holds the reads of server 1 until `answered` is set, at most for so many milliseconds; then it sets it to 2 itself. Counts them.
#[derive(Drop)]
struct ReadGate<R: Clock + Copy + Drop> {
    clock: R,
    signals: Arc<Signals>,
}

const RECORD: [u8; 8] = *b"a record";

impl<R: Clock + Copy + Drop> Clone for ReadGate<R> {
    fn clone(&self) -> Result<ReadGate<R>, AllocError> {
        Ok(ReadGate {
            clock: self.clock,
            signals: Arc::try_clone(&self.signals)?,
        })
    }
}

impl<R: Clock + Copy + Drop> Gate for ReadGate<R> {
    fn before(&self, node: Node, kind: Kind) {
        if node != Node::Server(ServerId(1)) || kind != Kind::Message(MessageKind::Read) {
            return;
        }
        self.signals.held.fetch_add(1, Ordering::SeqCst);
        wait_for(&self.clock, &self.signals.answered, 1);
        if self.signals.answered.load(Ordering::SeqCst) == 0 {
            self.signals.answered.store(2, Ordering::SeqCst);
        }
    }
}

// Makes a file with one record, and tells whether it did.
fn fill<R: Wait + Clock>(rt: &R, alloc: Global, seat: &mut Seat, name: &str) -> bool {
    if !create(rt, alloc, seat, name) {
        return false;
    }
    match open(rt, alloc, seat, name) {
        Some(fd) => append(rt, alloc, seat, fd, &RECORD).is_ok(),
        None => false,
    }
}

fn reads<R: Wait + Clock>(rt: &R, alloc: Global, seat: &mut Seat, name: &str) -> bool {
    match open(rt, alloc, seat, name) {
        Some(fd) => matches!(look(rt, seat, fd, 0, &RECORD), Found::Same),
        None => false,
    }
}

/// A client, and whether it read what it had to.
#[derive(Drop)]
struct Reader {
    seat: Seat,
    has_read: bool,
}

impl Reader {
    // The first one reads where reads are held. Once one is, the second one reads elsewhere, and then lets the first one's pass.
    fn read<R: Wait + Clock>(&mut self, rt: &R, alloc: Global, place: usize, signals: &Signals) {
        if place == 0 {
            self.has_read = reads(rt, alloc, &mut self.seat, "/a");
        } else {
            wait_for(rt, &signals.held, 1);
            let has_read = reads(rt, alloc, &mut self.seat, "/b");
            let before = signals.answered.swap(1, Ordering::SeqCst);
            self.has_read = has_read && before == 0;
        }
    }
}

// Whether two readers read, of a file on each server.
fn both_read<R: Threads + Wait + Clock + Sync>(
    rt: &R,
    alloc: Global,
    cell: &mut Cell,
    signals: &Signals,
) -> bool {
    let are_full = match cell.client() {
        Ok(mut seat) => {
            let are_full = fill(rt, alloc, &mut seat, "/a") && fill(rt, alloc, &mut seat, "/b");
            drop(seat);
            are_full
        }
        Err(_) => false,
    };
    if !are_full {
        return false;
    }
    let mut readers = Vec::new(alloc);
    for _ in 0..2 {
        if let Ok(seat) = cell.client() {
            let has_read = false;
            let _pushed = readers.push(Reader { seat, has_read }).is_ok();
        }
    }
    thread::for_each_mut(
        rt,
        readers.as_mut_slice(),
        2,
        &|place, reader| reader.read(rt, alloc, place, signals),
    );
    let have_read = readers.len() == 2 && readers.iter().all(|reader| reader.has_read);
    drop(readers);
    have_read
}

#[test]
fn one_server_is_held_and_another_answers(rt: HostRuntime) -> Result<(), Fail> {
    let alloc = rt.alloc();
    let signals = Signals {
        answered: AtomicU64::new(0),
        held: AtomicU64::new(0),
    };
    let signals = Arc::new(alloc, signals)?;
    let gate = ReadGate {
        clock: rt,
        signals: Arc::try_clone(&signals)?,
    };
    let mut cell = Cell::start(rt, alloc, small(1), 2, gate)?;
    let have_read = both_read(&rt, alloc, &mut cell, &signals);
    drop(cell.close(&rt));
    assert!(rt; have_read);
    assert!(rt; signals.held.load(Ordering::SeqCst) == 1);
    Ok(())
}
