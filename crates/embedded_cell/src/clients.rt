//! The clients of a trial.

use crate::follower::Follower;
use crate::taken::has;
use crate::trial_fault::TrialFault;
use crate::trial_producer::{RECORDS, TrialProducer};
use anyhow::Result;
use cell_run::{Cell, Refusal};
use std::alloc::Global;
use std::fmt;

/// How many producers there are.
pub const PRODUCERS: u32 = 2;

/// How many records were answered by the end of a stretch, and how many of these the reader took where they were answered: while it followed the
/// file, and once it had read all.
#[derive(Clone, Copy)]
pub struct Counts {
    pub stretch: u32,
    pub answered: u64,
    pub followed: u64,
    pub taken: u64,
}

impl Counts {
    pub const NONE: Counts = Counts {
        stretch: 0,
        answered: 0,
        followed: 0,
        taken: 0,
    };

    /// These counts, where none is missing, and most records of the stretch were taken while it followed.
    pub fn checked(self) -> Result<Counts, TrialFault> {
        let late = self.answered.saturating_sub(self.followed);
        if self.taken == self.answered && late < u64::from(RECORDS) {
            return Ok(self);
        }
        Err(anyhow::anyhow!("{self}, {late} of them late").into())
    }
}

impl fmt::Display for Counts {
    fn fmt<W: fmt::Write>(&self, f: &mut fmt::Formatter<W>) -> fmt::Result {
        write!(
            f,
            "stretch {}: {} records answered, {} of them taken",
            self.stretch, self.answered, self.taken
        )
    }
}

/// The producers, and the reader.
#[derive(Drop)]
pub struct Clients {
    pub producers: Vec<TrialProducer>,
    pub follower: Follower,
}

impl Clients {
    pub fn new(alloc: Global, cell: &mut Cell) -> Result<Clients> {
        let mut producers = Vec::new(alloc);
        for number in 0..PRODUCERS {
            producers.push(TrialProducer {
                seat: cell.client()?,
                next: number.wrapping_mul(1_000_000),
                answered: Vec::new(alloc),
                outcome: Ok(()),
            })?;
        }
        let follower = Follower {
            seat: cell.client()?,
            chunks: Vec::new(alloc),
            taken: Vec::new(alloc),
        };
        Ok(Clients {
            producers,
            follower,
        })
    }

    /// Why a producer could not append all its records, if one could not.
    pub fn outcome(&self) -> Result<(), Refusal> {
        for producer in self.producers.as_slice() {
            if let Err(refusal) = &producer.outcome {
                return Err(*refusal);
            }
        }
        Ok(())
    }

    /// Whether the reader saw all that the producers did, and so the answers of all their records.
    pub fn has_reader_seen_all(&self) -> bool {
        for producer in self.producers.as_slice() {
            if producer.seat.seen() > self.follower.seat.seen() {
                return false;
            }
        }
        true
    }

    /// How many records were answered, and how many of these the reader took where they were answered.
    pub fn counts(&self) -> (u64, u64) {
        let mut answered: u64 = 0;
        let mut taken: u64 = 0;
        for producer in self.producers.as_slice() {
            for one in producer.answered.as_slice() {
                answered = answered.wrapping_add(1);
                if has(self.follower.taken.as_slice(), *one) {
                    taken = taken.wrapping_add(1);
                }
            }
        }
        (answered, taken)
    }
}

/// Each client gets a new seat.
pub fn take_seats(
    cell: &mut Cell,
    producers: &mut [TrialProducer],
    follower: &mut Follower,
) -> Result<()> {
    for place in 0..producers.len() {
        producers[place].seat = cell.client()?;
    }
    follower.seat = cell.client()?;
    Ok(())
}
