//! Four producers append records to one file, each on a thread of its own, and a reader reads each record where it was answered to stand.

use anyhow::Result;
use cell_run::{Answer, Bytes, Cell, Config, Journal, OpenGate, Seat, Text};
use std::alloc::Global;
use std::sync::Wait;
use std::thread;
use std::thread::Threads;
use std::time::Clock;

/// How many records each producer appends.
const RECORDS: usize = 100;

/// A client that appends records of one letter, and the offsets at which they were answered to stand.
#[derive(Drop)]
struct Producer {
    seat: Seat,
    letter: u8,
    offsets: Vec<u64>,
    outcome: Result<()>,
}

impl Producer {
    fn append_all<R: Wait + Clock>(&mut self, rt: &R, alloc: Global) -> Result<()> {
        let fd = self.seat.open(rt, Text::from_str("/log", alloc)?)?;
        for _ in 0..RECORDS {
            let record = Bytes::copy_from_slice(alloc, &[self.letter; 8])?;
            let offset = self.seat.append(rt, fd, record)?;
            self.offsets.push(offset)?;
        }
        Ok(())
    }

    /// What a thread does with it.
    fn run<R: Wait + Clock>(&mut self, rt: &R, alloc: Global) {
        self.outcome = self.append_all(rt, alloc);
    }

    /// Whether another client reads each record where it was answered to stand.
    fn is_read_by<R: Wait + Clock>(
        &self,
        rt: &R,
        alloc: Global,
        reader: &mut Seat,
    ) -> Result<bool> {
        let fd = reader.open(rt, Text::from_str("/log", alloc)?)?;
        for offset in self.offsets.as_slice() {
            let (bytes, _rounds) = reader.read(rt, fd, *offset, 8)?;
            if bytes.as_slice() != [self.letter; 8].as_slice() {
                return Ok(false);
            }
        }
        Ok(true)
    }
}

/// Four producers, each with a seat of its own.
fn new_producers(alloc: Global, cell: &mut Cell) -> Result<Vec<Producer>> {
    let mut producers = Vec::new(alloc);
    for letter in [b'a', b'b', b'c', b'd'] {
        producers.push(Producer {
            seat: cell.client()?,
            letter,
            offsets: Vec::new(alloc),
            outcome: Ok(()),
        })?;
    }
    Ok(producers)
}

/// Whether this step of the journal answers an append.
fn answers_append(journal: &Journal, place: usize) -> bool {
    match journal.event(place) {
        Some(entry) => matches!(&entry.out().answer, Some(Answer::At(_))),
        None => false,
    }
}

/// The producers append at the same time, and then a reader reads what they did. Prints what came of each.
fn append_and_read<R: Threads + Wait + Clock + Print + Sync>(
    rt: &R,
    alloc: Global,
    producers: &mut Vec<Producer>,
    reader: &mut Seat,
) -> Result<()> {
    reader.create(rt, Text::from_str("/log", alloc)?, None)?;
    let run = |_: usize, producer: &mut Producer| producer.run(rt, alloc);
    thread::for_each_mut(rt, producers.as_mut_slice(), 4, &run);
    for producer in producers.as_slice() {
        let is_read = producer.is_read_by(rt, alloc, reader)?;
        match &producer.outcome {
            Ok(_) => println!(rt; "{} records, each read: {is_read}", producer.offsets.len())?,
            Err(error) => println!(rt; "{error}")?,
        }
    }
    Ok(())
}

/// Makes the clients of a cell, producers and a reader, runs them, and lets them go.
fn run_clients<R: Threads + Wait + Clock + Print + Sync>(
    rt: &R,
    alloc: Global,
    cell: &mut Cell,
) -> Result<()> {
    let mut producers = new_producers(alloc, cell)?;
    let mut reader = cell.client()?;
    let outcome = append_and_read(rt, alloc, &mut producers, &mut reader);
    drop(reader);
    drop(producers);
    outcome
}

/// Runs them in a cell, closes it, and prints how many appends its journal answers.
pub fn append_side_by_side<R: Threads + Wait + Clock + Print + Copy + Send + Sync + 'static>(
    rt: R,
    alloc: Global,
) -> Result<()> {
    let mut cell = Cell::start(rt, alloc, Config::default(), 3, OpenGate)?;
    run_clients(&rt, alloc, &mut cell)?;
    let journal = cell.close(&rt);
    let answered = (0..journal.len())
        .filter(|place| answers_append(&journal, *place))
        .count();
    drop(journal);
    println!(rt; "the journal answers {answered} appends")?;
    Ok(())
}
