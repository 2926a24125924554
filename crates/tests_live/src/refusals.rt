//! What a running cell itself refuses.

use crate::cells::{OddClock, mkdir, small, waiting_call};
use cell_run::SeatFault;
use cell_run::cell::Cell;
use cell_run::laws::meet;
use cell_seats::gate::OpenGate;
use cell_seats::mailboxes::Policy;
use gfs_types::config::Config;
use gfs_types::refusal::Refusal;
use std::alloc::Global;
use std::sync::Wait;
use std::test::*;
use std::thread;
use std::time::{Clock, Duration};

// How many of a hundred calls were refused since the journal is full, if none after the first such was not.
fn full_calls<R: Wait + Clock>(rt: &R, alloc: Global, cell: &mut Cell) -> Option<u64> {
    let mut seat = cell.client().ok()?;
    let mut full: u64 = 0;
    let mut are_in_turn = true;
    for _ in 0..100 {
        match mkdir(rt, alloc, &mut seat, "/d") {
            Err(Refusal::JournalFull) => full = full.wrapping_add(1),
            _ => are_in_turn &= full == 0,
        }
    }
    drop(seat);
    if are_in_turn { Some(full) } else { None }
}

#[test]
fn a_full_journal_is_refused(rt: HostRuntime) -> Result<(), Fail> {
    let alloc = rt.alloc();
    let config = Config {
        journal: 16,
        ..small()
    };
    let mut cell = Cell::start(rt, alloc, config, 3, OpenGate)?;
    let full = full_calls(&rt, alloc, &mut cell);
    let journal = cell.close(&rt);
    let count = journal.len();
    drop(journal);
    assert!(rt; count == 16);
    assert!(rt; full > Some(90));
    Ok(())
}

// Whether a call by an odd clock is refused so, and each later one too, whatever its clock: of that client where the clock can't be read, and
// of another where it is ahead of the master's.
fn are_refused<R: Wait + Clock + Copy>(
    rt: &R,
    alloc: Global,
    cell: &mut Cell,
    is_broken: bool,
) -> bool {
    let Ok(mut odd) = cell.client() else {
        return false;
    };
    let Ok(mut other) = cell.client() else {
        drop(odd);
        return false;
    };
    meet(&odd, &other);
    let clock = OddClock { rt: *rt, is_broken };
    let before = mkdir(rt, alloc, &mut other, "/d");
    let first = mkdir(&clock, alloc, &mut odd, "/e");
    let later = if is_broken {
        mkdir(rt, alloc, &mut odd, "/f")
    } else {
        mkdir(rt, alloc, &mut other, "/f")
    };
    drop(odd);
    drop(other);
    before == Ok(()) && first == Err(Refusal::ClockBroken) && later == first
}

#[test]
fn odd_clocks_are_refused(rt: HostRuntime) -> Result<(), Fail> {
    let alloc = rt.alloc();
    for is_broken in [true, false] {
        let mut cell = Cell::start(rt, alloc, small(), 1, OpenGate)?;
        let is_well = are_refused(&rt, alloc, &mut cell, is_broken);
        let journal = cell.close(&rt);
        let are_kept = journal.are_clocks_kept();
        drop(journal);
        assert!(rt; is_well);
        assert!(rt; is_broken || !are_kept);
    }
    Ok(())
}

#[test]
fn there_are_64_clients(rt: HostRuntime) -> Result<(), Fail> {
    let alloc = rt.alloc();
    let mut cell = Cell::start(rt, alloc, small(), 1, OpenGate)?;
    let mut made: u64 = 0;
    let mut refused: u64 = 0;
    for _ in 0..66 {
        match cell.client() {
            Ok(seat) => {
                drop(seat);
                made = made.wrapping_add(1);
            }
            Err(SeatFault::Many) => refused = refused.wrapping_add(1),
            Err(_) => {}
        }
    }
    drop(cell.close(&rt));
    assert!(rt; made == 64);
    assert!(rt; refused == 2);
    Ok(())
}

#[test]
fn closing_ends_calls(rt: HostRuntime) -> Result<(), Fail> {
    let alloc = rt.alloc();
    let mut cell = Cell::start(rt, alloc, small(), 3, OpenGate)?;
    // All messages are lost, so a call comes back only when the cell closes.
    let lossy = Policy {
        drop_every: 1,
        ..Policy::NONE
    };
    cell.net(lossy);
    let waiting = waiting_call(rt, alloc, &mut cell);
    thread::sleep(&rt, Duration::from_millis(300));
    drop(cell.close(&rt));
    let is_refused = match waiting {
        Some(thread) => thread.join(&rt),
        None => false,
    };
    assert!(rt; is_refused);
    Ok(())
}
