//! A producer: it appends records, each again under its id until the append is answered.

use crate::record::encode;
use crate::taken::Taken;
use cell_run::{Bytes, Fd, Refusal, Seat, Text};
use std::alloc::Global;
use std::sync::Wait;
use std::thread;
use std::time::{Clock, Duration};

/// How many records a producer appends in a stretch.
pub const RECORDS: u32 = 60;

/// How often a call is tried at most.
pub const MOST_TRIES: u32 = 1_000;

/// A client that appends records, with the id of its next one, those that were answered, and what came of its last calls.
#[derive(Drop)]
pub struct TrialProducer {
    pub seat: Seat,
    pub next: u32,
    pub answered: Vec<Taken>,
    pub outcome: Result<(), Refusal>,
}

impl TrialProducer {
    /// Appends so many records.
    pub fn append_all<R: Wait + Clock>(
        &mut self,
        rt: &R,
        alloc: Global,
        path: &str,
        records: u32,
    ) -> Result<(), Refusal> {
        let fd = self.open(rt, alloc, path)?;
        for _ in 0..records {
            let id = self.next;
            self.next = id.wrapping_add(1);
            let offset = self.append(rt, alloc, fd, id)?;
            if self.answered.push(Taken { id, offset }).is_err() {
                return Err(Refusal::NoMemory);
            }
        }
        Ok(())
    }

    fn open<R: Wait + Clock>(&mut self, rt: &R, alloc: Global, path: &str) -> Result<Fd, Refusal> {
        for _ in 0..MOST_TRIES {
            let Ok(name) = Text::from_str(path, alloc) else {
                return Err(Refusal::NoMemory);
            };
            match self.seat.open(rt, name) {
                Ok(fd) => return Ok(fd),
                Err(refusal) => pass(rt, refusal)?,
            }
        }
        Err(Refusal::Unknown)
    }

    // After 15 to 17 the record may stand already, or come to stand: it is appended once more, under the same id.
    fn append<R: Wait + Clock>(
        &mut self,
        rt: &R,
        alloc: Global,
        fd: Fd,
        id: u32,
    ) -> Result<u64, Refusal> {
        for _ in 0..MOST_TRIES {
            let record = record_of(alloc, id)?;
            match self.seat.append(rt, fd, record) {
                Ok(offset) => return Ok(offset),
                Err(refusal) => pass(rt, refusal)?,
            }
        }
        Err(Refusal::Unknown)
    }
}

fn record_of(alloc: Global, id: u32) -> Result<Bytes, Refusal> {
    let Ok(record) = encode(alloc, id) else {
        return Err(Refusal::NoMemory);
    };
    match Bytes::from_vec(record) {
        Ok(bytes) => Ok(bytes),
        Err(_) => Err(Refusal::NoMemory),
    }
}

/// Waits a while after a refusal of a call that nobody could serve, so that nothing is said of the file. Another refusal is an error.
pub fn pass<R: Clock>(rt: &R, refusal: Refusal) -> Result<(), Refusal> {
    match refusal {
        Refusal::NoReplica | Refusal::Failed | Refusal::Unknown => {
            thread::sleep(rt, Duration::from_millis(10));
            Ok(())
        }
        _ => Err(refusal),
    }
}
