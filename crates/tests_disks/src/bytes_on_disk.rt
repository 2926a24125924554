//! Bytes of a disk, by hand.

use bytes::Bytes;
use gfs_types::ids::{Handle, OrderNo, Serial, Version};
use std::alloc::{AllocError, Global};
use std::test::Fail;
use store_disk::{
    HashedBlock, SlotHeader, blocks_match, digests_of_blocks, read_header, read_order, write_head,
    write_header, write_order,
};

// Of `abc`, from the standard, twice.
const TWO_DIGESTS: [u8; 64] = [
    0xba, 0x78, 0x16, 0xbf, 0x8f, 0x01, 0xcf, 0xea, 0x41, 0x41, 0x40, 0xde, 0x5d, 0xae, 0x22, 0x23,
    0xb0, 0x03, 0x61, 0xa3, 0x96, 0x17, 0x7a, 0x9c, 0xb4, 0x10, 0xff, 0x61, 0xf2, 0x00, 0x15, 0xad,
    0xba, 0x78, 0x16, 0xbf, 0x8f, 0x01, 0xcf, 0xea, 0x41, 0x41, 0x40, 0xde, 0x5d, 0xae, 0x22, 0x23,
    0xb0, 0x03, 0x61, 0xa3, 0x96, 0x17, 0x7a, 0x9c, 0xb4, 0x10, 0xff, 0x61, 0xf2, 0x00, 0x15, 0xad,
];

// Of `abd`, by another implementation.
const OTHER_DIGEST: [u8; 32] = [
    0xa5, 0x2d, 0x15, 0x9f, 0x26, 0x2b, 0x2c, 0x6d, 0xdb, 0x72, 0x4a, 0x61, 0x84, 0x0b, 0xef, 0xc3,
    0x6e, 0xb3, 0x0c, 0x88, 0x87, 0x7a, 0x40, 0x30, 0xb6, 0x5c, 0xbe, 0x86, 0x29, 0x84, 0x49, 0xc9,
];

// Of 256 bytes of which the first 0, 100, 130 or 256 are `a`, or 130 are `b`, and the others zero, by another implementation.
const NOTHING: [u8; 32] = [
    0x53, 0x41, 0xe6, 0xb2, 0x64, 0x69, 0x79, 0xa7, 0x0e, 0x57, 0x65, 0x30, 0x07, 0xa1, 0xf3, 0x10,
    0x16, 0x94, 0x21, 0xec, 0x9b, 0xdd, 0x9f, 0x1a, 0x56, 0x48, 0xf7, 0x5a, 0xde, 0x00, 0x5a, 0xf1,
];

const LITTLE: [u8; 32] = [
    0xcf, 0xdf, 0x10, 0x7a, 0x85, 0x15, 0xab, 0x3d, 0xfc, 0x01, 0x31, 0x0b, 0x33, 0x0a, 0xce, 0x1f,
    0xf7, 0x0c, 0xcc, 0x15, 0xa0, 0x1b, 0xbf, 0x93, 0x16, 0x8b, 0x82, 0xa2, 0xbb, 0x14, 0xab, 0xe8,
];

const MORE: [u8; 32] = [
    0x1c, 0x62, 0xfa, 0x39, 0x3d, 0xdf, 0x03, 0x67, 0x6b, 0x2d, 0x59, 0x90, 0x5a, 0x5d, 0xdb, 0x3a,
    0xe7, 0x21, 0x66, 0x5f, 0x90, 0xe0, 0x6b, 0xd4, 0xa4, 0xdc, 0xc6, 0x6d, 0xbc, 0xb6, 0xcd, 0x60,
];

const ALL: [u8; 32] = [
    0x02, 0xd7, 0x16, 0x0d, 0x77, 0xe1, 0x8c, 0x64, 0x47, 0xbe, 0x80, 0xc2, 0xe3, 0x55, 0xc7, 0xed,
    0x43, 0x88, 0x54, 0x52, 0x71, 0x70, 0x2c, 0x50, 0x25, 0x3b, 0x09, 0x14, 0xc6, 0x5c, 0xe5, 0xfe,
];

const OTHERS: [u8; 32] = [
    0x7a, 0x02, 0xf6, 0x57, 0x61, 0x66, 0x60, 0xf5, 0xca, 0x5b, 0xa6, 0xb3, 0x9d, 0xe7, 0xc1, 0x20,
    0x63, 0x78, 0x7a, 0x07, 0xe5, 0x8c, 0x6c, 0xe1, 0xed, 0xf2, 0xf9, 0x7c, 0x91, 0x6e, 0xd6, 0xdc,
];

// Whether two blocks have these digests, whether the same blocks match them, and whether others do.
fn digests_met(alloc: Global) -> Result<[bool; 3], AllocError> {
    let mut hashed = HashedBlock::new(alloc);
    let digests = digests_of_blocks(alloc, &mut hashed, 3, 2, b"abcabc")?;
    let are_these = digests.as_slice() == TWO_DIGESTS.as_slice();
    let same = blocks_match(alloc, &mut hashed, 3, 2, b"abcabc", &digests);
    let others = blocks_match(alloc, &mut hashed, 3, 2, b"abcabd", &digests);
    drop(digests);
    drop(hashed);
    Ok([are_these, same?, others?])
}

#[test]
fn a_digest_for_each_block(rt: HostRuntime) -> Result<(), Fail> {
    assert_eq!(rt; digests_met(rt.alloc())?, [true, true, false]);
    Ok(())
}

// Whether each of these blocks, which are `abc` or `abd`, has its digest.
fn have_digests(hashed: &mut HashedBlock, blocks: &str) -> bool {
    for block in blocks.split(' ') {
        let digest = hashed.digest_of(block.as_bytes());
        let wanted = if block == "abc" {
            &TWO_DIGESTS[..32]
        } else {
            OTHER_DIGEST.as_slice()
        };
        if digest.as_slice() != wanted {
            return false;
        }
    }
    true
}

#[test]
fn a_block_that_was_hashed_last(rt: HostRuntime) {
    let mut hashed = HashedBlock::new(rt.alloc());
    let have_digests = have_digests(&mut hashed, "abc abc abd abc abd abd");
    drop(hashed);
    assert!(rt; have_digests);
}

// The first bytes of a block are this letter, the others zero.
fn filled_block(count: usize, letter: u8) -> [u8; 256] {
    let mut block = [0; 256];
    for place in 0..256 {
        if place < count {
            block[place] = letter;
        }
    }
    block
}

// The first of these blocks that hasn't its digest.
fn first_other(hashed: &mut HashedBlock) -> Option<usize> {
    for (count, letter, digest) in [
        (0, b'a', NOTHING),
        (100, b'a', LITTLE),
        (130, b'a', MORE),
        (256, b'a', ALL),
        (0, b'a', NOTHING),
        (130, b'a', MORE),
        (130, b'b', OTHERS),
        (100, b'a', LITTLE),
        (100, b'a', LITTLE),
    ] {
        let block = filled_block(count, letter);
        if hashed.digest_of(&block) != digest {
            return Some(count);
        }
    }
    None
}

#[test]
fn blocks_that_begin_as_the_last_one(rt: HostRuntime) {
    let mut hashed = HashedBlock::new(rt.alloc());
    let other = first_other(&mut hashed);
    drop(hashed);
    assert_eq!(rt; other, None);
}

// What owns bytes has one way out, and calls `drop` there: a drop at the end of a scope is proved anew at each place.
fn are(written: Bytes, wanted: &[u8]) -> bool {
    let are_these = written.as_slice() == wanted;
    drop(written);
    are_these
}

#[test]
fn the_head_of_two_slots(rt: HostRuntime) -> Result<(), Fail> {
    let head = write_head(rt.alloc(), 64, 16, 2)?;
    let bytes = [
        0x47, 0x46, 0x53, 0x43, 1, 0, 0, 0, 64, 0, 0, 0, 16, 0, 0, 0, 2, 0, 0, 0, 0, 0, 0, 0, 0, 0,
        0, 0, 0, 0, 0,
    ];
    assert!(rt; are(head, &bytes));
    Ok(())
}

#[test]
fn the_number_of_an_order(rt: HostRuntime) -> Result<(), Fail> {
    let order = OrderNo {
        epoch: 3,
        count: 258,
    };
    let written = write_order(rt.alloc(), order)?;
    let bytes = [3, 0, 0, 0, 0, 0, 0, 0, 2, 1, 0, 0, 0, 0, 0, 0];
    assert!(rt; are(written, &bytes));
    assert!(rt; read_order(&bytes) == order);
    Ok(())
}

#[test]
fn the_header_of_a_slot(rt: HostRuntime) -> Result<(), Fail> {
    let header = SlotHeader {
        handle: Handle(5),
        version: Version(2),
        serial: Serial(9),
        count: 64,
    };
    let written = write_header(rt.alloc(), header)?;
    let bytes = [
        1, 0, 0, 0, 0, 0, 0, 0, 5, 0, 0, 0, 0, 0, 0, 0, 2, 0, 0, 0, 0, 0, 0, 0, 9, 0, 0, 0, 0, 0,
        0, 0, 64, 0, 0, 0, 0, 0, 0, 0,
    ];
    let is_written = are(written, &bytes);
    let read = [read_header(&bytes), read_header(&[0; 40])];
    assert!(rt; is_written && read == [Some(header), None]);
    Ok(())
}
