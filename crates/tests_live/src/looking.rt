//! What a parked cell tells of bytes.

use crate::cells::{small, text};
use bytes::Bytes;
use cell_looks::{HistoryFault, LookFault, Looks, print_history, regions_of_chunk};
use cell_run::cell::{Cell, Seat};
use cell_run::{Parked, Retention};
use cell_seats::gate::OpenGate;
use cell_seats::journal::Journal;
use gfs_types::config::Config;
use gfs_types::ids::{FileId, Handle};
use gfs_types::path::Path;
use gfs_types::refusal::Refusal;
use relaxed_file::region::Region;
use std::alloc::Global;
use std::sync::Wait;
use std::test::*;
use std::thread::Threads;
use std::time::Clock;

/// What a client appends before its cell is parked: a record of eight bytes, of which eight fill a chunk, so often.
const RECORD: &[u8] = b"a record";

const RECORDS: usize = 10;

/// Up to where the first chunk and the second one are determined, the first one also by its handle and the journal alone, and how many replicas of it are
/// stored.
#[derive(Clone, Copy)]
struct Shown {
    first: u64,
    second: u64,
    by_handle: u64,
    replicas: usize,
}

// Makes the file where there is none, opens it and appends a record so often.
fn append_records<R: Wait + Clock>(
    rt: &R,
    alloc: Global,
    seat: &mut Seat,
    is_new: bool,
    (record, count): (&'static [u8], usize),
) -> Result<(), Refusal> {
    if is_new {
        seat.create(rt, text(alloc, "/f")?, None)?;
    }
    let fd = seat.open(rt, text(alloc, "/f")?)?;
    for _ in 0..count {
        seat.append(rt, fd, Bytes::from_static(record))?;
    }
    Ok(())
}

// A cell that is parked behind a new client's records. What owns a seat, a cell or looks has few ways out: a drop at the end of a scope is proved anew at each
// place.
#[tactic(auto, using(crate::proofs::Parkings::none_named))]
fn parked_behind<R: Threads + Wait + Clock>(
    rt: &R,
    alloc: Global,
    mut cell: Cell,
    is_new: bool,
    records: (&'static [u8], usize),
) -> Option<Parked> {
    let mut seat = cell.client().ok()?;
    let outcome = append_records(rt, alloc, &mut seat, is_new, records);
    drop(seat);
    outcome.ok()?;
    cell.park(rt, Vec::new(alloc)).ok()
}

// The end of a region at a chunk's beginning whose bytes are all determined.
fn end_of(region: &Region) -> Option<u64> {
    if region.from == 0 && region.determined {
        Some(region.to)
    } else {
        None
    }
}

// The end of a chunk that has one region, in which all bytes are determined.
fn sole_end(regions: &[Region]) -> Option<u64> {
    match regions {
        [region] => end_of(region),
        _ => None,
    }
}

fn determined_to(alloc: Global, looks: &Looks<'_>, file: FileId, index: u64) -> Option<u64> {
    let regions = looks.regions(alloc, file, index).ok()?;
    let regions = regions?;
    sole_end(regions.as_slice())
}

fn file_of(alloc: Global, looks: &Looks<'_>) -> Option<FileId> {
    let path = Path::parse(alloc, "/f").ok()?;
    looks.file(&path)
}

// The file's first chunk, and how many replicas of it are stored.
fn first_chunk(alloc: Global, looks: &Looks<'_>, file: FileId) -> Option<(Handle, usize)> {
    let replicas = looks.replicas(alloc, file, 0).ok()?;
    let (handle, replicas) = replicas?;
    let count = replicas.len();
    drop(replicas);
    Some((handle, count))
}

fn determined_by_handle(alloc: Global, journal: &Journal, handle: Handle) -> Option<u64> {
    let regions = regions_of_chunk(alloc, journal, handle).ok()?;
    sole_end(regions.as_slice())
}

fn shown_by(alloc: Global, looks: &Looks<'_>, journal: &Journal) -> Option<Shown> {
    let file = file_of(alloc, looks)?;
    let (handle, replicas) = first_chunk(alloc, looks, file)?;
    Some(Shown {
        first: determined_to(alloc, looks, file, 0)?,
        second: determined_to(alloc, looks, file, 1)?,
        by_handle: determined_by_handle(alloc, journal, handle)?,
        replicas,
    })
}

fn look_at(alloc: Global, parked: &Parked) -> Option<Shown> {
    let looks = Looks::at(alloc, parked).ok()?;
    let shown = shown_by(alloc, &looks, parked.journal());
    drop(looks);
    shown
}

// A parked cell goes on, without seats.
fn resumed<R: Threads + Wait + Clock + Copy + Send + 'static>(
    rt: R,
    parked: Parked,
) -> Option<Cell> {
    match parked.resume(rt, OpenGate) {
        Ok((cell, none)) => {
            drop(none);
            Some(cell)
        }
        Err((parked, _)) => {
            drop(parked);
            None
        }
    }
}

// What is told of a cell that is parked, goes on and is parked again, each time behind a client's records.
fn told_twice<R: Threads + Wait + Clock + Copy + Send + 'static>(
    rt: R,
    alloc: Global,
) -> Option<(Option<Shown>, Option<Shown>)> {
    let cell = Cell::start(rt, alloc, small(), 3, OpenGate).ok()?;
    let parked = parked_behind(&rt, alloc, cell, true, (RECORD, RECORDS))?;
    let first = look_at(alloc, &parked);
    let cell = resumed(rt, parked)?;
    let parked = parked_behind(&rt, alloc, cell, false, (RECORD, RECORDS))?;
    let second = look_at(alloc, &parked);
    drop(parked);
    Some((first, second))
}

#[test]
fn records_are_determined(rt: HostRuntime) -> Result<(), Fail> {
    let Some((Some(first), Some(second))) = told_twice(rt, rt.alloc()) else {
        return Err(Fail::new("not parked, or nothing is shown"));
    };
    assert!(rt; first.first == 64);
    assert!(rt; first.second == 16);
    assert!(rt; first.by_handle == 64);
    assert!(rt; first.replicas == 3);
    // Behind a parking a record may be padded over and tried again.
    assert!(rt; second.first == 64);
    assert!(rt; second.by_handle == 64);
    assert!(rt; second.second > 16);
    Ok(())
}

/// What is told where entries were let go.
const PARTIAL: (LookFault, LookFault, HistoryFault) = (
    LookFault::Partial,
    LookFault::Partial,
    HistoryFault::Partial,
);

// Why neither the regions of a file's first chunk are told, nor those of all its chunks, nor the calls and answers of the journal.
fn faults_of(alloc: Global, parked: &Parked) -> Option<(LookFault, LookFault, HistoryFault)> {
    let mut lines = Vec::new(alloc);
    let history = print_history(alloc, parked.journal(), &mut lines).err();
    drop(lines);
    let looks = Looks::at(alloc, parked).ok()?;
    let (one, all) = match file_of(alloc, &looks) {
        Some(file) => (
            looks.regions(alloc, file, 0).err(),
            looks.all_regions(alloc, file).err(),
        ),
        None => (None, None),
    };
    drop(looks);
    Some((one?, all?, history?))
}

// Why none are told of a cell of so many servers whose last entries stay, behind such records.
fn faults_behind<R: Threads + Wait + Clock + Copy + Send + 'static>(
    rt: R,
    alloc: Global,
    config: Config,
    (servers, kept): (u16, u32),
    records: (&'static [u8], usize),
) -> Option<(LookFault, LookFault, HistoryFault)> {
    let retention = Retention::Last(kept);
    let cell = Cell::start_retaining(rt, alloc, config, servers, retention, OpenGate).ok()?;
    let parked = parked_behind(&rt, alloc, cell, true, records)?;
    let faults = faults_of(alloc, &parked);
    drop(parked);
    faults
}

#[test]
fn a_part_of_a_history_tells_no_regions(rt: HostRuntime) {
    let config = Config {
        attempt_ms: 300,
        skew_ms: 500,
        ..small()
    };
    let faults = faults_behind(rt, rt.alloc(), config, (3, 40), (RECORD, RECORDS));
    assert!(rt; faults == Some(PARTIAL));
}

#[test]
fn where_entries_were_let_go_no_regions_are_told(rt: HostRuntime) {
    let config = Config {
        goal: 1,
        attempt_ms: 2_000,
        ..small()
    };
    let faults = faults_behind(rt, rt.alloc(), config, (1, 48), (b"a".as_slice(), 12));
    assert!(rt; faults == Some(PARTIAL));
}
