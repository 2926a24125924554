//! A reader that follows a file of chunks of 512 bytes, by the recipe of docs/TRUST.md.

ghost use Rattle.std.specs.Prelude.{◌*◌, ◌^◌, ◌<◌, ◌≤◌, ℕ, IfOk, OnOk};
ghost use mathlib.Core.List.{IsPrefix};
ghost use Rattle.embedded_cell.specs.Reading.{HasOpened, HasRead, IsLater, MissesNothing};

use crate::taken::{Taken, take_all};
use cell_run::{Fd, Refusal, Seat, Text};
use std::alloc::Global;
use std::sync::Wait;
use std::time::Clock;

/// The bytes of a chunk of the file.
pub const CHUNK: u64 = 512;

/// What is kept of a chunk, or what a read of it gave: the round that the read named, and the place behind the last record; 0 where there is none.
#[derive(Clone, Copy)]
pub struct ChunkState {
    pub round: u64,
    pub place: u64,
}

/// A client that reads a file, and what it keeps of it: of each chunk its state, and the records that it took.
#[derive(Drop)]
pub struct Follower {
    pub seat: Seat,
    pub chunks: Vec<ChunkState>,
    pub taken: Vec<Taken>,
}

// How many chunks have bytes of a file of this length.
fn chunk_count(length: u64) -> u64
    ensures all { length ≤ result * 512 }
    ensures within { (k : ℕ) → k < result → k * 512 < length }
    ensures fits { length < 2 ^ 64 }
{
    if length == 0 {
        return 0;
    }
    (length - 1) / CHUNK + 1
}

// What is kept of the chunk of this index.
fn state_of(chunks: &[ChunkState], index: usize) -> ChunkState {
    match chunks.get(index) {
        Some(state) => *state,
        None => ChunkState { round: 0, place: 0 },
    }
}

// Keeps this of the chunk of this index, which is the next one if nothing was kept of it.
fn keep(chunks: &mut Vec<ChunkState>, index: usize, state: ChunkState) -> Result<(), Refusal> {
    if index < chunks.len() {
        chunks[index] = state;
        return Ok(());
    }
    match chunks.push(state) {
        Ok(()) => Ok(()),
        Err(_) => Err(Refusal::NoMemory),
    }
}

impl Follower {
    /// Opens the file again, asks for its length, and then reads on in each chunk below that from the place that it kept, to the chunk's end; where
    /// the read names a greater round than the one that it kept, it goes back to the chunk's beginning.
    pub fn follow<R: Wait + Clock>(
        &mut self,
        rt: &R,
        alloc: Global,
        path: &str,
    ) -> Result<(), Refusal> {
        let (fd, length) = self.open_again(rt, alloc, path)?;
        let chunks = chunk_count(length);
        for index in 0..chunks {
            self.follow_chunk(rt, fd, index)?;
        }
        self.seat.close(rt, fd)?;
        Ok(())
    }

    // Reads on in the chunk of this index, or goes back to its beginning.
    fn follow_chunk<R: Wait + Clock>(&mut self, rt: &R, fd: Fd, index: u64) -> Result<(), Refusal> {
        let first = index.wrapping_mul(CHUNK);
        let before = state_of(self.chunks.as_slice(), index as usize);
        let from = before.place.min(CHUNK - 1);
        let on = self.read(rt, fd, first.wrapping_add(from), CHUNK - from)?;
        if on.round > before.round {
            // What was taken may have been unsettled, and what came since may lie before the place.
            let whole = self.read(rt, fd, first, CHUNK)?;
            return keep(&mut self.chunks, index as usize, whole);
        }
        let round = before.round;
        let place = before.place.max(from.saturating_add(on.place));
        keep(
            &mut self.chunks,
            index as usize,
            ChunkState { round, place },
        )
    }

    /// Opens the file again, asks for its length, and then reads each chunk below that from its beginning to its end. It misses no record that it
    /// had seen answered, where the file's chunks have 512 bytes, and nobody writes into it or into one that it goes back to by snapshots.
    pub fn read_all<R: Wait + Clock>(
        &mut self,
        rt: &R,
        alloc: Global,
        path: &str,
    ) -> Result<(), Refusal>
        ensures { OnOk result (MissesNothing self.old self.new path.now) }
    {
        let (fd, length) = self.open_again(rt, alloc, path)?;
        let chunks = chunk_count(length);
        for index in 0..chunks {
            self.read(rt, fd, index * CHUNK, CHUNK)?;
        }
        self.seat.close(rt, fd)?;
        Ok(())
    }

    // Opens the file again, and asks for its length.
    fn open_again<R: Wait + Clock>(
        &mut self,
        rt: &R,
        alloc: Global,
        path: &str,
    ) -> Result<(Fd, u64), Refusal>
        ensures { IfOk result (λ r. HasOpened self.old.seat self.new.seat path.now r.0 r.1) }
    {
        let Ok(name) = Text::from_str(path, alloc) else {
            return Err(Refusal::NoMemory);
        };
        let fd = self.seat.open(rt, name)?;
        let length = self.seat.length(rt, fd)?;
        Ok((fd, length))
    }

    // Reads so many bytes from an offset on, and takes the records in them.
    fn read<R: Wait + Clock>(
        &mut self,
        rt: &R,
        fd: Fd,
        offset: u64,
        count: u64,
    ) -> Result<ChunkState, Refusal>
        ensures later { OnOk result (IsLater self.old.seat self.new.seat) }
        ensures stays { OnOk result (IsPrefix self.old.taken.items self.new.taken.items) }
        ensures read { OnOk result (HasRead self.old.seat self.new fd offset count) }
    {
        let (bytes, rounds) = self.seat.read(rt, fd, offset, count)?;
        let Ok(behind) = take_all(&mut self.taken, bytes.as_slice(), offset) else {
            return Err(Refusal::NoMemory);
        };
        Ok(ChunkState {
            round: first_of(rounds.as_slice()),
            place: behind as u64,
        })
    }
}

fn first_of(rounds: &[u64]) -> u64 {
    match rounds.first() {
        Some(round) => *round,
        None => 0,
    }
}
