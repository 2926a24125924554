//! The bytes of records and items, by hand.

ghost use Rattle.std.specs.Prelude.{◌≡◌, IfOk, IsErrOf};
ghost use Rattle.log_codec.specs.Payloads.{IsWritable};
ghost use Rattle.log_codec.specs.declared.fault.DecodeFault.TheVariants.{Damaged};

use crate::samples::{client_item, copy_start, create, file_item, grant};
use gfs_types::refusal::Refusal;
use gfs_types::shape::Shape;
use log_codec::{DecodeFault, decode, encode, is_writable};
use log_records::record::Record;
use std::alloc::Global;
use std::test::Fail;

// 29 bytes; with a gate and a length before it they are the 34 of the disk.
const CREATE: [u8; 29] = [
    4, 1, 0, 0, 0, 0, 0, 0, 0, 1, 0, 0, 0, 0, 0, 0, 0, 1, 0, 0, 0, 0, 0, 0, 0, 2, 0, 0x2f, 0x61,
];

// The same of a file with a shape: 34 bytes, the 39 of the disk.
const SHAPED_CREATE: [u8; 34] = [
    15, 1, 0, 0, 0, 0, 0, 0, 0, 1, 0, 0, 0, 0, 0, 0, 0, 1, 0, 0, 0, 0, 0, 0, 0, 64, 0, 0, 0, 2, 2,
    0, 0x2f, 0x61,
];

const COPY_START: [u8; 37] = [
    13, 1, 0, 0, 0, 0, 0, 0, 0, 2, 0, 0, 0, 3, 0, 0, 0, 0, 0, 0, 0, 4, 0, 0, 0, 0, 0, 0, 0, 5, 0,
    0, 0, 0, 0, 0, 0,
];

const GRANT: [u8; 24] = [
    12, 5, 0, 0, 0, 0, 0, 0, 0, 6, 0, 0, 0, 0, 0, 0, 0, 1, 0, 2, 1, 0, 2, 1,
];

const FILE: [u8; 33] = [
    22, 2, 0, 0x2f, 0x66, 3, 0, 0, 0, 0, 0, 0, 0, 2, 0, 0, 0, 7, 0, 0, 0, 0, 0, 0, 0, 8, 0, 0, 0,
    0, 0, 0, 0,
];

const SHAPED_FILE: [u8; 38] = [
    25, 2, 0, 0x2f, 0x66, 3, 0, 0, 0, 0, 0, 0, 0, 64, 0, 0, 0, 2, 2, 0, 0, 0, 7, 0, 0, 0, 0, 0, 0,
    0, 8, 0, 0, 0, 0, 0, 0, 0,
];

// Chunks of 64 bytes, and two replicas of each.
const SMALL: Shape = Shape { chunk: 64, goal: 2 };

/// The item of client 1, whose call 9 was answered so.
fn answered(outcome: u8) -> [u8; 18] {
    [24, 1, 0, 0, 0, 0, 0, 0, 0, 9, 0, 0, 0, 0, 0, 0, 0, outcome]
}

// The caller of CALLING.md.
/// Writes a record's bytes and reads them again.
fn again(alloc: Global, entry: &Record) -> Result<Record, DecodeFault>
    requires { IsWritable entry.now }
    ensures same { IfOk result (λ r. r ≡ entry.now) }
    ensures undamaged { IsErrOf result Damaged → ⊥ }
{
    let bytes = encode(alloc, entry)?;
    decode(alloc, &bytes)
}

/// An epoch, written and read again.
fn there_and_back(alloc: Global) -> Result<Record, DecodeFault> {
    let epoch = Record::Epoch { epoch: 3 };
    let read = if is_writable(&epoch) {
        again(alloc, &epoch)
    } else {
        Err(DecodeFault::Damaged)
    };
    drop(epoch);
    read
}

/// Whether the record is written, and as these bytes.
fn has_bytes(alloc: Global, record: &Record, wanted: &[u8]) -> bool {
    if !is_writable(record) {
        return false;
    }
    match encode(alloc, record) {
        Ok(bytes) => bytes.as_slice() == wanted,
        Err(_) => false,
    }
}

// What owns a record has one way out, and calls `drop` there: a drop at the end of a scope is proved anew at each place.
/// The same of a record that is then let go.
fn is_written(alloc: Global, record: Record, wanted: &[u8]) -> bool {
    let is_written = has_bytes(alloc, &record, wanted);
    drop(record);
    is_written
}

/// Whether what is read of a record's bytes is that record, which is then let go.
fn is_read_again(alloc: Global, record: Record) -> bool {
    let is_read = is_writable(&record) && is_same(&record, again(alloc, &record));
    drop(record);
    is_read
}

fn is_same(record: &Record, read: Result<Record, DecodeFault>) -> bool {
    match read {
        Ok(found) => {
            let is_same = found == *record;
            drop(found);
            is_same
        }
        Err(_) => false,
    }
}

/// Whether these are no record's bytes.
fn are_damaged(alloc: Global, bytes: &[u8]) -> bool {
    match decode(alloc, bytes) {
        Ok(record) => {
            drop(record);
            false
        }
        Err(fault) => fault == DecodeFault::Damaged,
    }
}

#[test]
fn texts_and_lists_have_their_length_first(rt: HostRuntime) -> Result<(), Fail> {
    assert!(rt; is_written(rt.alloc(), create(rt.alloc(), None)?, &CREATE));
    assert!(rt; is_written(rt.alloc(), grant(rt.alloc())?, &GRANT));
    assert!(rt; is_written(rt.alloc(), file_item(rt.alloc(), None)?, &FILE));
    Ok(())
}

#[test]
fn a_shape_stands_before_what_has_a_length(rt: HostRuntime) -> Result<(), Fail> {
    let record = create(rt.alloc(), Some(SMALL))?;
    assert!(rt; is_written(rt.alloc(), record, &SHAPED_CREATE));
    let item = file_item(rt.alloc(), Some(SMALL))?;
    assert!(rt; is_written(rt.alloc(), item, &SHAPED_FILE));
    Ok(())
}

#[test]
fn a_shape_of_any_bytes_is_read(rt: HostRuntime) -> Result<(), Fail> {
    for (chunk, goal) in [(0, 0), (1, 9), (u32::MAX, u8::MAX)] {
        let record = create(rt.alloc(), Some(Shape { chunk, goal }))?;
        assert!(rt; is_read_again(rt.alloc(), record), "{chunk} {goal}");
    }
    Ok(())
}

#[test]
fn a_record_is_read_again(rt: HostRuntime) -> Result<(), Fail> {
    let epoch = there_and_back(rt.alloc())?;
    assert!(rt; is_written(rt.alloc(), epoch, &[1, 3, 0, 0, 0, 0, 0, 0, 0]));
    Ok(())
}

#[test]
fn numbers_have_their_lowest_byte_first(rt: HostRuntime) {
    let epoch = Record::Epoch { epoch: 0x0102_0304 };
    assert!(rt; is_written(rt.alloc(), epoch, &[1, 4, 3, 2, 1, 0, 0, 0, 0]));
    assert!(rt; is_written(rt.alloc(), copy_start(), &COPY_START));
}

#[test]
fn outcomes(rt: HostRuntime) {
    let refused = client_item(Some(Refusal::Exists));
    assert!(rt; is_written(rt.alloc(), client_item(None), &answered(0)));
    assert!(rt; is_written(rt.alloc(), refused, &answered(3)));
}

#[test]
fn other_bytes_are_damaged(rt: HostRuntime) {
    let others: [&[u8]; 12] = [
        &[],
        // tags
        &[0],
        &[14, 0, 0, 0, 0, 0, 0, 0, 0],
        &[16, 0, 0, 0, 0, 0, 0, 0, 0],
        &[26, 0, 0, 0, 0, 0, 0, 0, 0],
        // records that tell a shape, cut short
        &SHAPED_CREATE[..30],
        &SHAPED_FILE[..18],
        // no path, a path that ends in a slash, text that isn't UTF-8
        &[21, 0, 0],
        &[21, 3, 0, 0x2f, 0x61, 0x2f],
        &[21, 2, 0, 0x2f, 0xff],
        // numbers of no refusal
        &[8, 1, 0, 0, 0, 0, 0, 0, 0, 9, 0, 0, 0, 0, 0, 0, 0, 0],
        &[24, 1, 0, 0, 0, 0, 0, 0, 0, 9, 0, 0, 0, 0, 0, 0, 0, 23],
    ];
    for bytes in others {
        assert!(rt; are_damaged(rt.alloc(), bytes));
    }
}
