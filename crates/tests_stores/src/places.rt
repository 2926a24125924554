//! The bytes of a store's disk.

use crate::chunk_calls::{STEPS, fused, run};
use crate::log_bytes::are_in_place;
use gfs_types::torn::Torn;
use std::test::Fail;

// A slot's header: it is used, handle 7, version 8, no serial, 3 bytes.
const HEADER: [u8; 40] = [
    1, 0, 0, 0, 0, 0, 0, 0, 7, 0, 0, 0, 0, 0, 0, 0, 8, 0, 0, 0, 0, 0, 0, 0, 0, 0, 0, 0, 0, 0, 0, 0,
    3, 0, 0, 0, 0, 0, 0, 0,
];

// The head with its open gate, and the order's number.
const HEAD: [u8; 48] = [
    0x47, 0x46, 0x53, 0x43, 1, 0, 0, 0, 64, 0, 0, 0, 16, 0, 0, 0, 2, 0, 0, 0, 0, 0, 0, 0, 0, 0, 0,
    0, 0, 0, 0, 1, 2, 0, 0, 0, 0, 0, 0, 0, 3, 0, 0, 0, 0, 0, 0, 0,
];

// The head and the order, the closed gate, the first replica's bytes, the header of its copy, and the copy's bytes, of which one is another.
const PARTS: [(usize, &[u8]); 5] = [
    (0, &HEAD),
    (48, &[0]),
    (664, &[0x61, 0x62, 0x63, 0]),
    (728, &HEADER),
    (896, &[0x61, 0x78, 0x63, 0]),
];

#[test]
fn each_part_has_its_place(rt: HostRuntime) -> Result<(), Fail> {
    let alloc = rt.alloc();
    let (disk, ran) = run(fused(alloc, 1_000)?, alloc, STEPS);
    let mut disk = disk.stop(Torn::Old);
    let are_in_place = are_in_place(&mut disk, alloc, &PARTS);
    drop(disk);
    assert!(rt; ran.done == STEPS);
    assert!(rt; are_in_place);
    Ok(())
}
