//! Producers that append at the same time as clients leave.

use crate::cells::{StoppingClock, small};
use crate::producers::{Producer, append, count_kept, open, produce_all, producers_of};
use cell_run::cell::{Cell, Seat};
use cell_seats::gate::OpenGate;
use gfs_types::refusal::Refusal;
use std::alloc::Global;
use std::sync::Wait;
use std::sync::atomic::AtomicU64;
use std::test::*;
use std::thread;
use std::thread::Threads;
use std::time::Clock;

/// How many clients leave, each after one reading of its clock more than the one before it.
const LEAVING: u64 = 16;

/// How many of them leave in a call at least: an append takes a client four steps, and each reads the clock.
const LEAST: u64 = 3;

/// How many records each producer appends meanwhile.
const RECORDS: u64 = 40;

// A client appends by a clock that can't be read any more after so many readings. Tells whether the call has no answer.
fn leaves<R: Wait + Clock + Copy + Drop>(
    rt: &R,
    alloc: Global,
    seat: &mut Seat,
    readings: u64,
) -> bool {
    let Some(fd) = open(rt, alloc, seat, "/log") else {
        return false;
    };
    let clock = StoppingClock {
        rt: *rt,
        most: readings,
        readings: AtomicU64::new(0),
    };
    append(&clock, alloc, seat, fd, b"a record") == Err(Refusal::ClockBroken)
}

// How many clients left in a call, behind which their seats were dropped.
fn leave_in_turn<R: Wait + Clock + Copy + Drop>(rt: &R, alloc: Global, cell: &mut Cell) -> u64 {
    let mut count: u64 = 0;
    for readings in 1..=LEAVING {
        if let Ok(mut seat) = cell.client() {
            let has_left = leaves(rt, alloc, &mut seat, readings);
            drop(seat);
            count = count.wrapping_add(u64::from(has_left));
        }
    }
    count
}

// The producers append at the same time as clients leave. Tells how many of these left in a call.
fn leave_meanwhile<R: Threads + Wait + Clock + Copy + Sync + Drop>(
    rt: &R,
    alloc: Global,
    cell: &mut Cell,
    producers: &mut [Producer],
) -> u64 {
    let (_, left) = thread::join(
        rt,
        || produce_all(rt, alloc, producers, RECORDS),
        || leave_in_turn(rt, alloc, cell),
    );
    left
}

// How many records of two producers were answered, if each is read back; none where fewer clients left in a call.
fn kept_while_clients_leave<R: Threads + Wait + Clock + Copy + Sync + Drop>(
    rt: &R,
    alloc: Global,
    cell: &mut Cell,
) -> Option<usize> {
    let (mut reader, mut all) = producers_of(rt, alloc, cell, 2)?;
    let left = leave_meanwhile(rt, alloc, cell, all.as_mut_slice());
    let count = count_kept(rt, alloc, &mut reader, all.as_slice());
    drop(all);
    drop(reader);
    if left < LEAST { None } else { count }
}

#[test]
fn seats_are_dropped_in_a_call(rt: HostRuntime) -> Result<(), Fail> {
    let alloc = rt.alloc();
    let mut cell = Cell::start(rt, alloc, small(3), 3, OpenGate)?;
    let count = kept_while_clients_leave(&rt, alloc, &mut cell);
    drop(cell.close(&rt));
    assert!(rt; count > Some(39));
    Ok(())
}
