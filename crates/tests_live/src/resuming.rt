//! Parked cells that go on.

ghost use Rattle.std.specs.Prelude.{◌≡◌, ◌∷◌, [], All, IfSome};
ghost use Rattle.tests_live.specs.ParkFaults.{KeepsName};

use crate::cells::{OddClock, mkdir, small, text};
use cell_journal::closed_history::ClosedHistory;
use cell_journal::journal_entry::StepCause;
use cell_run::ParkFault;
use cell_run::cell::{Cell, Seat, StartFault};
use cell_run::parked::Parked;
use cell_seats::gate::OpenGate;
use gfs_types::config::Config;
use gfs_types::ids::{Node, ServerId};
use gfs_types::refusal::Refusal;
use std::alloc::Global;
use std::sync::Wait;
use std::test::*;
use std::thread::Threads;
use std::time::Clock;

const NAMES: [&str; 10] = ["/a", "/b", "/c", "/d", "/e", "/f", "/g", "/h", "/i", "/j"];

/// How many steps may be taken before a cell is parked, whose journal has room for 64.
const LEAST_ROOM: u64 = 40;

/// The nodes of a cell of two servers that begin again.
const NODES: [Node; 3] = [
    Node::Master,
    Node::Server(ServerId(1)),
    Node::Server(ServerId(2)),
];

/// A cell and a seat of it.
#[derive(Drop)]
struct Seated {
    cell: Cell,
    seat: Seat,
    ghost of: { seat.cell.name ≡ cell.of.name },
}

// A new cell of so many servers, with its first seat.
fn new_seated<R: Threads + Wait + Clock + Copy + Send + 'static>(
    rt: R,
    alloc: Global,
    config: Config,
    servers: u16,
) -> Option<Seated> {
    let mut cell = Cell::start(rt, alloc, config, servers, OpenGate).ok()?;
    let Ok(seat) = cell.client() else {
        drop(cell.close(&rt));
        return None;
    };
    let seated = Seated { cell, seat };
    Some(seated)
}

// A list of one seat. Where memory is refused it is asked for once more.
fn one(alloc: Global, seat: Seat) -> Option<Vec<Seat>>
    ensures { IfSome result (λ l. l.items ≡ seat ∷ []) }
{
    match Vec::from_array(alloc, [seat]) {
        Ok(seats) => Some(seats),
        Err(refused) => match Vec::from_array(alloc, refused.value) {
            Ok(seats) => Some(seats),
            Err(_) => None,
        },
    }
}

// Parks the cell with its seat. Where memory is refused it does so once more, with what came back. None: clocks were not kept.
fn park<R: Threads + Wait + Clock>(rt: &R, alloc: Global, seated: Seated) -> Option<Parked> {
    let Seated { cell, seat } = seated;
    let Some(seats) = one(alloc, seat) else {
        drop(cell.close(rt));
        return None;
    };
    match cell.park(rt, seats) {
        Ok(parked) => Some(parked),
        Err(fault) => park_again(rt, fault),
    }
}

fn park_again<R: Threads + Wait + Clock>(rt: &R, fault: ParkFault) -> Option<Parked>
    requires { KeepsName fault }
{
    match fault {
        ParkFault::NoMemory(cell, seats) => cell.park(rt, seats).ok(),
        ParkFault::Clock(journal, seats) => {
            drop(journal);
            drop(seats);
            None
        }
    }
}

// A new cell of one server that is parked with its first seat.
fn new_parked<R: Threads + Wait + Clock + Copy + Send + 'static>(
    rt: R,
    alloc: Global,
) -> Option<Parked> {
    park(&rt, alloc, new_seated(rt, alloc, small(), 1)?)
}

// A parked cell goes on with its seat.
fn resume<R: Threads + Wait + Clock + Copy + Send + 'static>(
    rt: R,
    parked: Parked,
) -> Option<Seated> {
    match parked.resume(rt, OpenGate) {
        Ok((cell, seats)) => first_seated(cell, seats),
        Err((parked, _)) => {
            drop(parked);
            None
        }
    }
}

// The cell with the last of its seats.
fn first_seated(cell: Cell, seats: Vec<Seat>) -> Option<Seated>
    requires { All (λ s. s.cell.name ≡ cell.of.name) seats.items }
{
    let mut seats = seats;
    let Some(seat) = seats.pop() else {
        drop(seats);
        drop(cell);
        return None;
    };
    let seated = Seated { cell, seat };
    drop(seats);
    Some(seated)
}

// The cell is parked with its seat, and goes on.
fn go_on<R: Threads + Wait + Clock + Copy + Send + 'static>(
    rt: R,
    alloc: Global,
    seated: Seated,
) -> Option<Seated> {
    resume(rt, park(&rt, alloc, seated)?)
}

// Makes the directory, by a client of a new number where the journal was full, and tells whether it is there.
fn made<R: Threads + Wait + Clock + Copy + Send + 'static>(
    rt: R,
    alloc: Global,
    seated: Seated,
    name: &str,
) -> Option<Seated> {
    let mut seated = seated;
    if seated.cell.room() < LEAST_ROOM {
        seated = go_on(rt, alloc, seated)?;
    }
    let mut outcome = mkdir(&rt, alloc, &mut seated.seat, name);
    if outcome == Err(Refusal::JournalFull) {
        seated = go_on(rt, alloc, seated)?;
        outcome = match mkdir(&rt, alloc, &mut seated.seat, name) {
            Err(Refusal::Exists) => Ok(()),
            again => again,
        };
    }
    if outcome.is_ok() { Some(seated) } else { None }
}

// How many names `/` has after all directories were made, if that is told, and whether the journal stands behind another.
fn make_all<R: Threads + Wait + Clock + Copy + Send + 'static>(
    rt: R,
    alloc: Global,
    config: Config,
) -> Option<(Option<usize>, bool)> {
    let root = text(alloc, "/").ok()?;
    let mut seated = new_seated(rt, alloc, config, 3)?;
    for name in NAMES {
        seated = made(rt, alloc, seated, name)?;
    }
    let Seated { cell, mut seat } = seated;
    let listed = seat.list(&rt, root).ok().map(|names| names.len());
    let journal = cell.close(&rt);
    Some((listed, journal.base().is_some()))
}

#[test]
fn a_full_journal_is_gone_past(rt: HostRuntime) {
    let config = Config {
        journal: 64,
        ..small()
    };
    // Beside the ten stands `/.gone`.
    assert!(rt; make_all(rt, rt.alloc(), config) == Some((Some(11), true)));
}

// Whether a parked cell goes on, and answers.
fn answers<R: Threads + Wait + Clock + Copy + Send + 'static>(
    rt: R,
    alloc: Global,
    parked: Parked,
) -> bool {
    let Some(seated) = resume(rt, parked) else {
        return false;
    };
    let Seated { cell, mut seat } = seated;
    let is_made = mkdir(&rt, alloc, &mut seat, "/last").is_ok();
    drop(seat);
    drop(cell.close(&rt));
    is_made
}

// Whether a parked cell doesn't go on by one clock, since it isn't kept, and then does by the other, and answers.
fn stays_parked<
    R: Threads + Wait + Clock + Copy + Send + 'static,
    S: Threads + Wait + Clock + Copy + Send + 'static,
>(one: R, other: S, alloc: Global, parked: Option<Parked>) -> bool {
    let Some(parked) = parked else {
        return false;
    };
    match parked.resume(one, OpenGate) {
        Ok((cell, seats)) => {
            drop(seats);
            drop(cell);
            false
        }
        Err((parked, fault)) => {
            let is_answered = answers(other, alloc, parked);
            is_answered && fault == StartFault::Clock
        }
    }
}

#[test]
fn a_clock_that_cannot_be_read_leaves_a_parked_cell(rt: HostRuntime) {
    let broken = OddClock {
        rt,
        is_broken: true,
    };
    let parked = new_parked(rt, rt.alloc());
    assert!(rt; stays_parked(broken, rt, rt.alloc(), parked));
}

// A new cell that is parked, goes on by another clock, takes a step and is parked again.
fn parked_by<
    R: Threads + Wait + Clock + Copy + Send + 'static,
    S: Threads + Wait + Clock + Copy + Send + 'static,
>(rt: R, other: S, alloc: Global) -> Option<Parked> {
    let mut seated = resume(other, new_parked(rt, alloc)?)?;
    if mkdir(&other, alloc, &mut seated.seat, "/a").is_err() {
        drop(seated);
        return None;
    }
    park(&other, alloc, seated)
}

// By the true clock, once the cell took a step by one that is ahead by an hour, and after that by the latter.
#[test]
fn a_clock_that_went_back_leaves_a_parked_cell(rt: HostRuntime) {
    let ahead = OddClock {
        rt,
        is_broken: false,
    };
    let parked = parked_by(rt, ahead, rt.alloc());
    assert!(rt; stays_parked(rt, ahead, rt.alloc(), parked));
}

fn is_restart(cause: &StepCause) -> bool {
    match cause {
        StepCause::Restarts => true,
        _ => false,
    }
}

// Whether the master, and then each of two servers, began again before anything else was done.
fn begins_with_restarts(history: &ClosedHistory) -> bool {
    let mut place: usize = 0;
    for node in NODES {
        let Some(entry) = history.event(place) else {
            return false;
        };
        if entry.node() != node || !is_restart(entry.cause()) {
            return false;
        }
        place = place.wrapping_add(1);
    }
    true
}

fn count_restarts(history: &ClosedHistory) -> usize {
    let mut count: usize = 0;
    for place in 0..history.len() {
        if let Some(entry) = history.event(place) {
            if is_restart(entry.cause()) {
                count = count.wrapping_add(1);
            }
        }
    }
    count
}

#[test]
fn nodes_begin_again_first_behind_a_parking(rt: HostRuntime) -> Result<(), Fail> {
    let Some(seated) = new_seated(rt, rt.alloc(), small(), 2) else {
        return Err(Fail::new("no cell, or no client"));
    };
    let Some(parked) = park(&rt, rt.alloc(), seated) else {
        return Err(Fail::new("not parked"));
    };
    let Some(seated) = resume(rt, parked) else {
        return Err(Fail::new("not resumed"));
    };
    let Seated { mut cell, mut seat } = seated;
    // No node has these numbers, so that none begins again.
    cell.restart(&rt, Node::Server(ServerId(0)));
    cell.restart(&rt, Node::Server(ServerId(65)));
    let is_made = mkdir(&rt, rt.alloc(), &mut seat, "/a").is_ok();
    drop(seat);
    let journal = cell.close(&rt);
    let history = journal.history();
    let begins = begins_with_restarts(history);
    let restarts = count_restarts(history);
    let (steps, all) = (journal.len(), history.len());
    drop(journal);
    assert!(rt; is_made);
    assert!(rt; begins);
    assert!(rt; restarts == NODES.len());
    // The journal's own steps stand behind these.
    assert!(rt; steps.saturating_add(NODES.len()) == all);
    Ok(())
}

// Makes clients as long as there are numbers for them.
fn make_clients(cell: &mut Cell)
    ensures { cell.new.of ≡ cell.old.of }
{
    for _ in 0..64u64 {
        let Ok(_seat) = cell.client() else {
            return;
        };
    }
}

// The cell is parked without its seat, and goes on.
fn leave_behind<R: Threads + Wait + Clock + Copy + Send + 'static>(
    rt: R,
    alloc: Global,
    seated: Seated,
) -> Option<Seated> {
    let Seated { cell, seat } = seated;
    let Ok(parked) = cell.park(&rt, Vec::new(alloc)) else {
        drop(seat);
        return None;
    };
    let Ok((cell, none)) = parked.resume(rt, OpenGate) else {
        drop(seat);
        return None;
    };
    let seated = Seated { cell, seat };
    drop(none);
    Some(seated)
}

// Whether a seat that was left behind finds no number any more, and the parked cell is still there then.
fn run_out<R: Threads + Wait + Clock + Copy + Send + 'static>(
    rt: R,
    alloc: Global,
) -> Option<bool> {
    let mut seated = new_seated(rt, alloc, small(), 1)?;
    make_clients(&mut seated.cell);
    let seated = leave_behind(rt, alloc, seated)?;
    let parked = park(&rt, alloc, seated)?;
    match parked.resume(rt, OpenGate) {
        Ok((cell, seats)) => {
            drop(seats);
            drop(cell);
            None
        }
        Err((parked, fault)) => {
            let has_all = parked.has_all_clients();
            drop(parked);
            Some(fault == StartFault::Count && !has_all)
        }
    }
}

#[test]
fn numbers_of_clients_run_out(rt: HostRuntime) {
    assert!(rt; run_out(rt, rt.alloc()) == Some(true));
}

// Whether the cell is parked and goes on, where a refused one of both is tried again.
fn goes_on<R: Threads + Wait + Clock + Copy + Send + 'static>(
    rt: R,
    alloc: Global,
    seated: Seated,
) -> bool {
    let Some(parked) = park(&rt, alloc, seated) else {
        return false;
    };
    match parked.resume(rt, OpenGate) {
        Ok((cell, seats)) => {
            drop(seats);
            drop(cell.close(&rt));
            true
        }
        Err((parked, _)) => answers(rt, alloc, parked),
    }
}

#[test]
fn a_refused_parking_loses_nothing(rt: HostRuntime) {
    // Where there is no cell, or no client of it, nothing is to be parked.
    let goes_on = match new_seated(rt, rt.alloc(), small(), 1) {
        Some(seated) => goes_on(rt, rt.alloc(), seated),
        None => true,
    };
    assert!(rt; goes_on);
}
