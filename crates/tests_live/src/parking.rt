//! Cells that are parked.

ghost use Rattle.std.specs.Prelude.{◌≡◌};

use crate::cells::{OddClock, mkdir, small, waiting_call};
use cell_run::ParkFault;
use cell_run::cell::{Cell, Seat};
use cell_seats::gate::OpenGate;
use cell_seats::mailboxes::Policy;
use std::alloc::Global;
use std::sync::Wait;
use std::test::*;
use std::thread;
use std::thread::Threads;
use std::time::{Clock, Duration};

const NAMES: [&str; 5] = ["/a", "/b", "/c", "/d", "/e"];

/// What came of parking a cell.
#[derive(Clone, Copy)]
enum Outcome {
    /// With so many steps in its journal.
    Parked(usize),
    /// Memory was refused. Whether a call on the cell that came back was done.
    RunsOn(bool),
    /// Clocks were not kept, and there are so many steps in the journal, and so many seats came back.
    Closed(usize, usize),
}

// Makes each of the directories, and tells how many were made.
fn mkdir_all<R: Wait + Clock>(rt: &R, alloc: Global, seat: &mut Seat) -> u64
    ensures { seat.new.cell ≡ seat.old.cell }
{
    let mut made: u64 = 0;
    for name in NAMES {
        if mkdir(rt, alloc, seat, name).is_ok() {
            made = made.wrapping_add(1);
        }
    }
    made
}

// Parks a cell with one of its seats. Where memory is refused a call is made on the cell that came back.
#[tactic(auto, using(crate::proofs::Parkings::one_named))]
fn park_with<R: Threads + Wait + Clock>(rt: &R, alloc: Global, cell: Cell, seat: Seat) -> Outcome
    requires { seat.cell ≡ cell.of }
{
    let mut seats = Vec::new(alloc);
    if seats.push(seat).is_err() {
        drop(seats);
        drop(cell.close(rt));
        return Outcome::RunsOn(false);
    }
    match cell.park(rt, seats) {
        Ok(parked) => {
            let count = parked.journal().len();
            drop(parked);
            Outcome::Parked(count)
        }
        Err(ParkFault::NoMemory(cell, mut seats)) => {
            let called = match seats.pop() {
                Some(mut seat) => {
                    let called = mkdir(rt, alloc, &mut seat, "/again").is_ok();
                    drop(seat);
                    called
                }
                None => false,
            };
            drop(seats);
            drop(cell.close(rt));
            Outcome::RunsOn(called)
        }
        Err(ParkFault::Clock(journal, seats)) => {
            let (count, came_back) = (journal.len(), seats.len());
            drop(journal);
            drop(seats);
            Outcome::Closed(count, came_back)
        }
    }
}

// With an allocation refused the cell may run on, and answers as before.
#[test]
fn a_parked_cell_has_its_journal(rt: HostRuntime) -> Result<(), Fail> {
    let alloc = rt.alloc();
    let mut cell = Cell::start(rt, alloc, small(), 3, OpenGate)?;
    let Ok(mut seat) = cell.client() else {
        drop(cell);
        return Err(Fail::new("no client"));
    };
    mkdir_all(&rt, alloc, &mut seat);
    let seen = seat.seen();
    let is_well = match park_with(&rt, alloc, cell, seat) {
        Outcome::Parked(count) => seen > 0 && seen <= count as u64,
        Outcome::RunsOn(called) => called,
        Outcome::Closed(_, _) => false,
    };
    assert!(rt; is_well);
    Ok(())
}

// Of whose clients one called by a clock that is ahead by an hour.
#[test]
fn a_cell_of_odd_clocks_is_closed(rt: HostRuntime) -> Result<(), Fail> {
    let alloc = rt.alloc();
    let mut cell = Cell::start(rt, alloc, small(), 1, OpenGate)?;
    let Ok(mut odd) = cell.client() else {
        drop(cell);
        return Err(Fail::new("no client"));
    };
    let Ok(mut seat) = cell.client() else {
        drop(odd);
        drop(cell);
        return Err(Fail::new("no client"));
    };
    let clock = OddClock {
        rt,
        is_broken: false,
    };
    let _refused = mkdir(&clock, alloc, &mut odd, "/a");
    let _refused = mkdir(&rt, alloc, &mut seat, "/b");
    let is_closed = match park_with(&rt, alloc, cell, seat) {
        Outcome::Closed(count, seats) => count > 0 && seats == 1,
        _ => false,
    };
    drop(odd);
    assert!(rt; is_closed);
    Ok(())
}

// It is parked while a client whose seat is not handed in waits for an answer, since all messages are lost.
#[test]
fn a_seat_that_is_kept_back_is_refused(rt: HostRuntime) -> Result<(), Fail> {
    let alloc = rt.alloc();
    let mut cell = Cell::start(rt, alloc, small(), 3, OpenGate)?;
    cell.net(Policy {
        drop_every: 1,
        ..Policy::NONE
    });
    let waiting = waiting_call(rt, alloc, &mut cell);
    thread::sleep(&rt, Duration::from_millis(300));
    let Ok(seat) = cell.client() else {
        drop(waiting);
        drop(cell);
        return Err(Fail::new("no client"));
    };
    let outcome = park_with(&rt, alloc, cell, seat);
    let is_refused = match waiting {
        Some(thread) => thread.join(&rt),
        None => false,
    };
    assert!(rt; is_refused);
    assert!(rt; matches!(outcome, Outcome::Parked(_)));
    Ok(())
}
