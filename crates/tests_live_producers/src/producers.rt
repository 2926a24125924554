//! Producers, which append records to one file, and a reader of these.

use bytes::Bytes;
use cell_run::cell::{Cell, Seat};
use gfs_types::ids::Fd;
use gfs_types::lists::Text;
use gfs_types::refusal::Refusal;
use std::alloc::Global;
use std::collections::BTreeMap;
use std::sync::Wait;
use std::thread;
use std::thread::Threads;
use std::time::{Clock, Duration};

/// How often a record is looked for where no server could tell it, and for how many milliseconds it is waited in between.
const MOST_LOOKS: u64 = 50;

const PAUSE_MS: u64 = 100;

/// A record and the offset at which it was answered to stand.
#[derive(Clone, Copy)]
pub struct Stored {
    pub number: u64,
    pub offset: u64,
}

/// What a read shows of a record.
#[derive(Clone, Copy)]
pub enum Found {
    Same,
    Otherwise,
    /// No server could tell.
    Nothing,
}

/// A client with the number of its next record, those of its records that were answered, and whether another call of it was refused
/// for another reason than that nobody could serve.
#[derive(Drop)]
pub struct Producer {
    pub seat: Seat,
    pub next: u64,
    pub stored: Vec<Stored>,
    pub is_strange: bool,
}

impl Producer {
    // Appends so many records. One that is not answered is left out.
    fn produce<R: Wait + Clock>(&mut self, rt: &R, alloc: Global, records: u64) {
        let Some(fd) = open(rt, alloc, &mut self.seat, "/log") else {
            return;
        };
        for _ in 0..records {
            let number = self.next;
            self.next = number.wrapping_add(1);
            match append(rt, alloc, &mut self.seat, fd, &number.to_be_bytes()) {
                Ok(offset) => {
                    self.is_strange |= self.stored.push(Stored { number, offset }).is_err()
                }
                Err(Refusal::NoReplica | Refusal::Failed) => {}
                Err(_) => self.is_strange = true,
            }
        }
    }
}

/// Opens a file.
pub fn open<R: Wait + Clock>(rt: &R, alloc: Global, seat: &mut Seat, name: &str) -> Option<Fd> {
    let path = Text::from_str(name, alloc).ok()?;
    seat.open(rt, path).ok()
}

/// Makes a file, and tells whether it did.
pub fn create<R: Wait + Clock>(rt: &R, alloc: Global, seat: &mut Seat, name: &str) -> bool {
    match Text::from_str(name, alloc) {
        Ok(path) => seat.create(rt, path, None).is_ok(),
        Err(_) => false,
    }
}

/// Appends a record.
pub fn append<R: Wait + Clock>(
    rt: &R,
    alloc: Global,
    seat: &mut Seat,
    fd: Fd,
    record: &[u8],
) -> Result<u64, Refusal> {
    match Bytes::copy_from_slice(alloc, record) {
        Ok(bytes) => seat.append(rt, fd, bytes),
        Err(_) => Err(Refusal::NoMemory),
    }
}

/// Looks for a record of eight bytes.
pub fn look<R: Wait + Clock>(rt: &R, seat: &mut Seat, fd: Fd, offset: u64, record: &[u8]) -> Found {
    match seat.read(rt, fd, offset, 8) {
        Ok((bytes, rounds)) => {
            let is_same = bytes.as_slice() == record;
            drop(rounds);
            drop(bytes);
            if is_same {
                Found::Same
            } else {
                Found::Otherwise
            }
        }
        Err(Refusal::NoReplica | Refusal::Unknown) => Found::Nothing,
        Err(_) => Found::Otherwise,
    }
}

/// A reader, and so many producers, with a hundred thousand numbers of records for each, and with a file that all of them append to, which the reader makes.
pub fn producers_of<R: Wait + Clock>(
    rt: &R,
    alloc: Global,
    cell: &mut Cell,
    count: u64,
) -> Option<(Seat, Vec<Producer>)> {
    let mut reader = cell.client().ok()?;
    let is_made = create(rt, alloc, &mut reader, "/log");
    let mut all = Vec::new(alloc);
    for number in 0..count {
        if let Ok(seat) = cell.client() {
            let producer = Producer {
                seat,
                next: number.wrapping_mul(100_000),
                stored: Vec::new(alloc),
                is_strange: false,
            };
            let _pushed = all.push(producer).is_ok();
        }
    }
    if is_made && all.len() as u64 == count {
        Some((reader, all))
    } else {
        drop(all);
        drop(reader);
        None
    }
}

/// All producers append at the same time, each on a thread of its own.
pub fn produce_all<R: Threads + Wait + Clock + Sync>(
    rt: &R,
    alloc: Global,
    producers: &mut [Producer],
    records: u64,
) {
    let threads = producers.len();
    if threads > 0 {
        thread::for_each_mut(
            rt,
            producers,
            threads,
            &|_, producer| producer.produce(rt, alloc, records),
        );
    }
}

/// How many records were answered; none where two have one offset, one isn't read back, or a call was refused for another reason than that
/// nobody could serve.
pub fn count_kept<R: Wait + Clock>(
    rt: &R,
    alloc: Global,
    reader: &mut Seat,
    producers: &[Producer],
) -> Option<usize> {
    let answered = count_answered(alloc, producers)?;
    let fd = open(rt, alloc, reader, "/log")?;
    for producer in producers {
        for stored in producer.stored.as_slice() {
            if !is_read_back(rt, reader, fd, *stored) {
                return None;
            }
        }
    }
    Some(answered)
}

// How many records were answered; none where two have one offset, a call was refused for another reason than that nobody could serve, or memory is refused.
fn count_answered(alloc: Global, producers: &[Producer]) -> Option<usize> {
    let mut offsets = BTreeMap::new(alloc);
    let mut count: usize = 0;
    let mut is_strange = false;
    for producer in producers {
        is_strange |= producer.is_strange;
        for stored in producer.stored.as_slice() {
            is_strange |= offsets.insert(stored.offset, ()).is_err();
            count = count.wrapping_add(1);
        }
    }
    if offsets.len() == count && !is_strange {
        Some(count)
    } else {
        None
    }
}

// A master that began again knows of no replica until servers report, so that a read may be refused at first.
fn is_read_back<R: Wait + Clock>(rt: &R, reader: &mut Seat, fd: Fd, stored: Stored) -> bool {
    for _ in 0..MOST_LOOKS {
        match look(rt, reader, fd, stored.offset, &stored.number.to_be_bytes()) {
            Found::Same => return true,
            Found::Otherwise => return false,
            Found::Nothing => thread::sleep(rt, Duration::from_millis(PAUSE_MS)),
        }
    }
    false
}
