//! Logs of format 1, which were written before files had shapes.

use crate::log_bytes::holds;
use crate::log_calls::{SIZE, WAYS, append_epoch};
use crate::plan::{counters, write_items};
use disk::{Disk, FuseDisk, MemDisk};
use gfs_types::no_memory::NoMemory;
use gfs_types::torn::Torn;
use log_codec::{encode, is_writable};
use log_records::record::Record;
use oplog::{Log, LogFault};
use std::alloc::Global;

// Next file 3, next handle 5, epoch 1.
const COUNTERS: [u8; 25] = [
    20, 3, 0, 0, 0, 0, 0, 0, 0, 5, 0, 0, 0, 0, 0, 0, 0, 1, 0, 0, 0, 0, 0, 0, 0,
];

const ROOT: [u8; 4] = [21, 1, 0, 47];

// `/.gone`
const GONE: [u8; 9] = [21, 6, 0, 47, 46, 103, 111, 110, 101];

// `/a`, file 1, one chunk: handle 3.
const FILE: [u8; 25] = [
    22, 2, 0, 47, 97, 1, 0, 0, 0, 0, 0, 0, 0, 1, 0, 0, 0, 3, 0, 0, 0, 0, 0, 0, 0,
];

// Handle 3, granted 2, issued 2, primary 1, member 1.
const CHUNK: [u8; 30] = [
    23, 3, 0, 0, 0, 0, 0, 0, 0, 2, 0, 0, 0, 0, 0, 0, 0, 2, 0, 0, 0, 0, 0, 0, 0, 1, 0, 1, 1, 0,
];

// Client 1, whose call 1 is done.
const CLIENT: [u8; 18] = [24, 1, 0, 0, 0, 0, 0, 0, 0, 1, 0, 0, 0, 0, 0, 0, 0, 0];

// Client 1, call 2, file 2, `/b`.
const CREATE: [u8; 29] = [
    4, 1, 0, 0, 0, 0, 0, 0, 0, 2, 0, 0, 0, 0, 0, 0, 0, 2, 0, 0, 0, 0, 0, 0, 0, 2, 0, 47, 98,
];

/// File 2, handle 4.
pub(crate) const ADD_CHUNK: [u8; 17] = [10, 2, 0, 0, 0, 0, 0, 0, 0, 4, 0, 0, 0, 0, 0, 0, 0];

// Handle 4, version 1.
const ISSUE: [u8; 17] = [11, 4, 0, 0, 0, 0, 0, 0, 0, 1, 0, 0, 0, 0, 0, 0, 0];

// Handle 4, version 1, primary 1, member 1.
const GRANT: [u8; 22] = [
    12, 4, 0, 0, 0, 0, 0, 0, 0, 1, 0, 0, 0, 0, 0, 0, 0, 1, 0, 1, 1, 0,
];

// Client 1, call 2, file 2, chunks of 64 bytes, goal 2, `/b`.
const SHAPED_CREATE: [u8; 34] = [
    15, 1, 0, 0, 0, 0, 0, 0, 0, 2, 0, 0, 0, 0, 0, 0, 0, 2, 0, 0, 0, 0, 0, 0, 0, 64, 0, 0, 0, 2, 2,
    0, 47, 98,
];

// `/a`, file 1, chunks of 64 bytes, goal 2, no chunk.
const SHAPED_FILE: [u8; 22] = [
    25, 2, 0, 47, 97, 1, 0, 0, 0, 0, 0, 0, 0, 64, 0, 0, 0, 2, 0, 0, 0, 0,
];

const ITEMS: [&[u8]; 6] = [&COUNTERS, &ROOT, &GONE, &FILE, &CHUNK, &CLIENT];

const RECORDS: [&[u8]; 4] = [&CREATE, &ADD_CHUNK, &ISSUE, &GRANT];

const ENTRIES: [&[u8]; 10] = [
    &COUNTERS, &ROOT, &GONE, &FILE, &CHUNK, &CLIENT, &CREATE, &ADD_CHUNK, &ISSUE, &GRANT,
];

// Both kinds that tell a shape, behind such that tell none.
const SHAPED_ITEMS: [&[u8]; 2] = [&COUNTERS, &SHAPED_FILE];

const SHAPED_RECORDS: [&[u8]; 2] = [&CREATE, &SHAPED_CREATE];

const SHAPED_ENTRIES: [&[u8]; 4] = [&COUNTERS, &SHAPED_FILE, &CREATE, &SHAPED_CREATE];

// What the second gate of a disk of format 1 may hold: a stop while it was opened may have left any byte.
const CLOSED: [u8; 2] = [0, 7];

// An opening of such a disk takes 7 calls of it.
const OPENING_CALLS: u64 = 8;

// A length, which is below 256.
fn length(payload: &[u8]) -> u8 {
    u8::try_from(payload.len()).unwrap_or(0)
}

// A length, and so many bytes.
fn put_entry(out: &mut Vec<u8>, payload: &[u8]) -> Result<(), NoMemory> {
    out.extend_from_slice(&[length(payload), 0, 0, 0])?;
    out.extend_from_slice(payload)?;
    Ok(())
}

// The head with this byte in its second gate, and the first area with a checkpoint of these items, whose length is below 256, and these records.
fn put_disk(
    out: &mut Vec<u8>,
    second: u8,
    items: &[&[u8]],
    records: &[&[u8]],
) -> Result<(), NoMemory> {
    out.extend_from_slice(&[71, 70, 83, 76, 1, second, 0, 0, 0, 0, 0, 0, 0, 0, 0, 1])?;
    out.extend_from_slice(&[1, 1, 0, 0, 0, 0, 0, 0, 0])?;
    let mut all: u8 = 0;
    for item in items {
        all = all.wrapping_add(4).wrapping_add(length(item));
    }
    out.extend_from_slice(&[all, 0, 0, 0])?;
    for item in items {
        put_entry(out, item)?;
    }
    for record in records {
        out.push(1)?;
        put_entry(out, record)?;
    }
    out.push(0)?;
    Ok(())
}

/// A disk with these. What owns bytes has few ways out: a drop at the end of a scope is proved anew at each place.
pub(crate) fn disk_with(
    alloc: Global,
    second: u8,
    items: &[&[u8]],
    records: &[&[u8]],
) -> Option<MemDisk> {
    let mut disk = MemDisk::new(alloc, SIZE).ok()?;
    let mut image = Vec::new(alloc);
    let is_written = put_disk(&mut image, second, items, records).is_ok()
        && image.len() <= disk.size()
        && disk.write_at(0, &image).is_ok()
        && disk.sync().is_ok();
    drop(image);
    if is_written {
        return Some(disk);
    }
    drop(disk);
    None
}

fn has_payload(alloc: Global, entry: &Record, wanted: &[u8]) -> bool {
    if !is_writable(entry) {
        return false;
    }
    match encode(alloc, entry) {
        Ok(bytes) => bytes.as_slice() == wanted,
        Err(_) => false,
    }
}

fn are_entries(alloc: Global, entries: &[Record], wanted: &[&[u8]]) -> bool {
    if entries.len() != wanted.len() {
        return false;
    }
    for (entry, payload) in entries.iter().zip(wanted.iter()) {
        if !has_payload(alloc, entry, payload) {
            return false;
        }
    }
    true
}

// Opens the log, and whether it has so many items, and these entries.
fn find<D: Disk + Drop>(
    disk: D,
    alloc: Global,
    items: usize,
    wanted: &[&[u8]],
) -> (D, Result<bool, LogFault>) {
    if disk.size() != SIZE {
        return (disk, Err(LogFault::Damaged));
    }
    match Log::open(alloc, disk) {
        Ok((log, entries)) => {
            let is_there = log.item_count() == items && are_entries(alloc, &entries, wanted);
            drop(entries);
            (log.into_disk(), Ok(is_there))
        }
        Err((disk, fault)) => (disk, Err(fault)),
    }
}

// Opens the log, and writes a checkpoint of one item.
fn shrink(disk: MemDisk, alloc: Global) -> (MemDisk, bool) {
    if disk.size() != SIZE {
        return (disk, false);
    }
    match Log::open(alloc, disk) {
        Ok((mut log, entries)) => {
            drop(entries);
            let mut items = Vec::new(alloc);
            let is_written = items.push(counters(3)).is_ok()
                && write_items(&mut log, alloc, &items).is_ok();
            drop(items);
            (log.into_disk(), is_written)
        }
        Err((disk, _)) => (disk, false),
    }
}

// Whether the log of the items and records above is found, has format 2 then, and goes on: an epoch is appended and stands there, and so does a checkpoint.
fn is_upgraded(disk: MemDisk, alloc: Global) -> bool {
    let (mut disk, found) = find(disk, alloc, 6, &ENTRIES);
    let is_open = holds(&mut disk, alloc, 0, &[71, 70, 83, 76, 1, 1, 0]);
    let (disk, first) = append_epoch(disk, alloc, 2);
    let (disk, second) = append_epoch(disk, alloc, 2);
    let (disk, is_written) = shrink(disk, alloc);
    let (disk, third) = append_epoch(disk, alloc, 2);
    drop(disk);
    let are_appended = first.fault.is_none() && second.fault.is_none() && third.fault.is_none();
    let are_found = first.found == 10 && second.found == 11 && third.found == 1;
    found == Ok(true) && is_open && are_appended && is_written && are_found
}

// Whether an opening whose disk stops after so many calls came to its end; none where it fails without a stop, or where the log isn't found after it.
fn is_opened_after(alloc: Global, second: u8, calls: u64, torn: Torn) -> Option<bool> {
    let mut disk = FuseDisk::new(disk_with(alloc, second, &ITEMS, &RECORDS)?);
    disk.arm(calls);
    let (disk, found) = find(disk, alloc, 6, &ENTRIES);
    let is_upgraded = is_upgraded(disk.stop(torn), alloc);
    let is_open = found == Ok(true);
    if is_upgraded && (is_open || found == Err(LogFault::Device)) {
        Some(is_open)
    } else {
        None
    }
}

// At each call of the opening, and behind the last one.
#[test]
fn a_stop_leaves_the_log_in_either_format(rt: HostRuntime) {
    for second in CLOSED {
        for torn in WAYS {
            let mut last = None;
            for calls in 0..OPENING_CALLS {
                last = is_opened_after(rt.alloc(), second, calls, torn);
                assert!(rt; last.is_some(), "{second}, call {calls}");
            }
            assert!(rt; last == Some(true), "{second}");
        }
    }
}

// What an opening of a disk with these finds; none where its head isn't as before.
fn found_with(
    alloc: Global,
    second: u8,
    items: &[&[u8]],
    records: &[&[u8]],
    wanted: &[&[u8]],
) -> Option<Result<bool, LogFault>> {
    let disk = disk_with(alloc, second, items, records)?;
    let (mut disk, found) = find(disk, alloc, items.len(), wanted);
    let is_as_before = holds(&mut disk, alloc, 0, &[71, 70, 83, 76, 1, second, 0]);
    drop(disk);
    if is_as_before { Some(found) } else { None }
}

// A log of format 1 with a record or an item that tells a shape is damaged, and its head stays as it is; format 2 has both kinds.
#[test]
fn format_2_alone_has_shapes(rt: HostRuntime) {
    let alloc = rt.alloc();
    for second in CLOSED {
        let record = found_with(alloc, second, &ITEMS, &SHAPED_RECORDS, &[]);
        let item = found_with(alloc, second, &SHAPED_ITEMS, &RECORDS, &[]);
        assert!(rt; matches!(record, Some(Err(LogFault::Damaged))), "{second}");
        assert!(rt; matches!(item, Some(Err(LogFault::Damaged))), "{second}");
    }
    let both = found_with(alloc, 1, &SHAPED_ITEMS, &SHAPED_RECORDS, &SHAPED_ENTRIES);
    assert!(rt; matches!(both, Some(Ok(true))));
}
