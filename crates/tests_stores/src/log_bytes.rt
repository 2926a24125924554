//! The bytes of a log's disk.

use crate::log_calls::{SIZE, append, append_epoch, create};
use disk::{Disk, MemDisk};
use log_records::record::Record;
use oplog::{LogFault, read_range};
use std::alloc::{AllocError, Global};
use std::test::Fail;

// The head of format 2, and its open gate.
const HEAD: [u8; 16] = [71, 70, 83, 76, 1, 1, 0, 0, 0, 0, 0, 0, 0, 0, 0, 1];

// An open area's gate, its number, and the length of a checkpoint with no items.
const AREA: [u8; 13] = [1, 1, 0, 0, 0, 0, 0, 0, 0, 0, 0, 0, 0];

// Epoch 1 behind its open gate.
const EPOCH: [u8; 14] = [1, 9, 0, 0, 0, 1, 1, 0, 0, 0, 0, 0, 0, 0];

// A Create's 39 bytes on the disk: an open gate, the length 34, and the payload.
const CREATE: [u8; 39] = [
    1, 34, 0, 0, 0, 15, 1, 0, 0, 0, 0, 0, 0, 0, 1, 0, 0, 0, 0, 0, 0, 0, 1, 0, 0, 0, 0, 0, 0, 0, 64,
    0, 0, 0, 2, 2, 0, 47, 97,
];

// Epoch 1 and the Create stand there, with the closed gate after them, and nothing in the second area.
const PARTS: [(usize, &[u8]); 6] = [
    (0, &HEAD),
    (16, &AREA),
    (29, &EPOCH),
    (43, &CREATE),
    (82, &[0]),
    (2_048, &[0]),
];

/// Whether these bytes stand on the disk at this place.
pub(crate) fn holds<D: Disk>(disk: &mut D, alloc: Global, place: usize, wanted: &[u8]) -> bool {
    let size = disk.size();
    if place > size || wanted.len() > size - place {
        return false;
    }
    match read_range(disk, alloc, place, wanted.len()) {
        Ok(bytes) => bytes.as_slice() == wanted,
        Err(_) => false,
    }
}

/// Whether all of these stand at their places.
pub(crate) fn are_in_place<D: Disk>(disk: &mut D, alloc: Global, parts: &[(usize, &[u8])]) -> bool {
    for (place, wanted) in parts {
        if !holds(disk, alloc, *place, wanted) {
            return false;
        }
    }
    true
}

// Whether a new disk has both records in their places, once each was appended.
fn are_appended(alloc: Global, record: &Record) -> Result<bool, AllocError> {
    let (disk, first) = append_epoch(MemDisk::new(alloc, SIZE)?, alloc, 1);
    let (mut disk, second) = append(disk, alloc, record);
    let are_in_place = are_in_place(&mut disk, alloc, &PARTS);
    drop(disk);
    Ok(first.found == 0 && second.found == 1 && are_in_place)
}

// How many records there are once an append is Full, and is Full again over the same disk; None where another fault comes, or none in a hundred appends.
fn filled(alloc: Global, record: &Record) -> Result<Option<usize>, AllocError> {
    let mut disk = MemDisk::new(alloc, SIZE)?;
    let mut found = None;
    for _ in 0..100 {
        let (next, ran) = append(disk, alloc, record);
        disk = next;
        if ran.fault.is_some() {
            if ran.fault == Some(LogFault::Full) {
                found = Some(ran.found);
            }
            break;
        }
    }
    let (disk, again) = append(disk, alloc, record);
    drop(disk);
    let is_full = again.fault == Some(LogFault::Full);
    let is_same = found == Some(again.found);
    Ok(if is_full && is_same { found } else { None })
}

#[test]
fn records_lie_in_their_places(rt: HostRuntime) -> Result<(), Fail> {
    let alloc = rt.alloc();
    let record = create(alloc)?;
    let are_appended = are_appended(alloc, &record);
    let filled = filled(alloc, &record);
    drop(record);
    assert!(rt; are_appended?);
    assert!(rt; filled? == Some(51), "so many Creates fit");
    Ok(())
}
