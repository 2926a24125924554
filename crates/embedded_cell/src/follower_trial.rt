//! A reader follows a file over rounds, while two producers append to it, messages are lost, repeated and held up, and the nodes begin again. Between
//! stretches the cell is parked and goes on, with new seats. In the end the reader reads all, and is asked for each record that was answered: one that
//! it missed is an error.

use crate::clients::{Clients, Counts, take_seats};
use crate::follower::CHUNK;
use crate::stretch::{PATH, Reading, read_on, run_stretch};
use crate::trial_fault::TrialFault;
use anyhow::Result;
use cell_run::{Cell, Config, OpenGate, ParkFault, Policy, Refusal, Seat, Text};
use std::alloc::Global;
use std::sync::Wait;
use std::thread::Threads;
use std::time::Clock;

const STRETCHES: usize = 3;

/// The clock bounds of the trials, in milliseconds: where clocks were not kept, there is one more, with the next of them.
const CLOCK_BOUNDS: [u64; 3] = [1_000, 2_000, 3_000];

/// One message of so many is lost, one repeated, and one held up.
const FAULTS: Policy = Policy {
    drop_every: 401,
    repeat_every: 97,
    hold_every: 211,
};

// A master that begins again reads half of its disk in one step: a small disk lets the clock bound be small, which each lost message costs its client.
fn settings(skew_ms: u64) -> Config {
    Config {
        chunk: CHUNK as u32,
        block: 64,
        slots: 128,
        goal: 2,
        lease_ms: skew_ms.saturating_mul(2),
        skew_ms,
        attempt_ms: 200,
        log_bytes: 262_144,
        ..Config::default()
    }
}

fn make_file<R: Wait + Clock>(rt: &R, alloc: Global, seat: &mut Seat) -> Result<(), Refusal> {
    let Ok(name) = Text::from_str(PATH, alloc) else {
        return Err(Refusal::NoMemory);
    };
    seat.create(rt, name, None)?;
    Ok(())
}

// What of the records is taken once nothing more is appended: first as the reader follows the file to its end, and then as it reads all.
fn count_taken<R: Wait + Clock>(
    rt: &R,
    alloc: Global,
    clients: &mut Clients,
    stretch: u32,
) -> Result<Counts, TrialFault> {
    read_on(rt, alloc, &mut clients.follower, Reading::Follows)?;
    let (_, followed) = clients.counts();
    // Behind an answer the reader has seen what producers saw before; what had been answered by then it takes now.
    read_on(rt, alloc, &mut clients.follower, Reading::All)?;
    if !clients.has_reader_seen_all() {
        return Err(anyhow::anyhow!("a producer saw more than the reader").into());
    }
    read_on(rt, alloc, &mut clients.follower, Reading::All)?;
    let (answered, taken) = clients.counts();
    let counts = Counts {
        stretch,
        answered,
        followed,
        taken,
    };
    counts.checked()
}

// A stretch with new seats, of which the first one makes the file, and behind it what of the records was taken.
fn measure_stretch<R: Threads + Wait + Clock + Sync>(
    rt: &R,
    alloc: Global,
    cell: &mut Cell,
    clients: &mut Clients,
    stretch: u32,
) -> Result<Counts, TrialFault> {
    take_seats(
        cell,
        clients.producers.as_mut_slice(),
        &mut clients.follower,
    )?;
    if stretch == 1 {
        make_file(rt, alloc, &mut clients.follower.seat)?;
    }
    cell.net(FAULTS);
    run_stretch(
        rt,
        alloc,
        cell,
        clients.producers.as_mut_slice(),
        &mut clients.follower,
    )?;
    cell.net(Policy::NONE);
    clients.outcome()?;
    count_taken(rt, alloc, clients, stretch)
}

// The cell is parked without seats, and goes on.
fn reopen<R: Threads + Wait + Clock + Copy + Send + 'static>(
    rt: R,
    alloc: Global,
    cell: Cell,
) -> Result<Cell, TrialFault> {
    let parked = match cell.park(&rt, Vec::new(alloc)) {
        Ok(parked) => parked,
        Err(ParkFault::Clock(_, _)) => return Err(TrialFault::ClockBroken),
        Err(ParkFault::NoMemory(_, _)) => return Err(Refusal::NoMemory.into()),
    };
    match parked.resume(rt, OpenGate) {
        Ok((cell, _seats)) => Ok(cell),
        Err((_, fault)) => Err(fault.into()),
    }
}

// All stretches, with one cell, which is closed then.
fn run_stretches<R: Threads + Wait + Clock + Copy + Send + Sync + 'static>(
    rt: R,
    alloc: Global,
    cell: Cell,
    clients: &mut Clients,
) -> Result<[Counts; STRETCHES], TrialFault> {
    let mut cell = cell;
    let mut found = [Counts::NONE; STRETCHES];
    for place in 0..STRETCHES {
        let stretch = (place as u32).wrapping_add(1);
        match measure_stretch(&rt, alloc, &mut cell, clients, stretch) {
            Ok(counts) => found[place] = counts,
            Err(fault) => {
                drop(cell.close(&rt));
                return Err(fault);
            }
        }
        cell = reopen(rt, alloc, cell)?;
    }
    if cell.close(&rt).are_clocks_kept() {
        Ok(found)
    } else {
        Err(TrialFault::ClockBroken)
    }
}

// A trial, with this clock bound. What owns clients or a cell has few ways out: a drop at the end of a scope is proved anew at each place.
fn run_trial<R: Threads + Wait + Clock + Copy + Send + Sync + 'static>(
    rt: R,
    alloc: Global,
    skew_ms: u64,
) -> Result<[Counts; STRETCHES], TrialFault> {
    let mut cell = Cell::start(rt, alloc, settings(skew_ms), 3, OpenGate)?;
    let mut clients = Clients::new(alloc, &mut cell)?;
    run_stretches(rt, alloc, cell, &mut clients)
}

/// Runs trials until clocks were kept in one, and prints what that one counted.
pub fn run_trials<R: Threads + Wait + Clock + Print + Eprint + Copy + Send + Sync + 'static>(
    rt: R,
    alloc: Global,
) -> Result<()> {
    for skew_ms in CLOCK_BOUNDS {
        match run_trial(rt, alloc, skew_ms) {
            Ok(found) => {
                for counts in found {
                    println!(rt; "{counts}")?;
                }
                return Ok(());
            }
            Err(TrialFault::ClockBroken) => {
                eprintln!(rt; "clocks were not kept within {skew_ms} ms")?;
            }
            Err(TrialFault::Failed(error)) => return Err(error),
        }
    }
    Err(anyhow::anyhow!("clocks were not kept"))
}
