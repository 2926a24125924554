//! The bytes of a chunk, and what a read may find of its order, in worked scripts. What is expected was worked out by hand, from the
//! definitions and from what the scripts print.

use bytes::Bytes;
use gfs_types::mutation::Mutation;
use machine_programs::entry::Entry;
use machine_programs::image::image;
use machine_programs::selection::is_selection;
use std::alloc::{AllocError, Global};
use std::test::Fail;

const A13: &[u8] = b"aaaaaaaaaaaaa";

const B13: &[u8] = b"bbbbbbbbbbbbb";

/// The last write of a place counts, and an earlier one shows where it doesn't reach; a hole and a pad are zeros. What owns mutations calls `drop` once: a drop at
/// the end of a scope is proved anew at each place.
#[test]
fn later_writes_holes_and_pads(rt: HostRuntime) -> Result<(), Fail> {
    let mutations = [
        Mutation::Write(0, Bytes::from_static(b"abcdef")),
        Mutation::Write(2, Bytes::from_static(b"XY")),
        Mutation::Write(3, Bytes::from_static(b"z")),
        Mutation::Append(8, Bytes::from_static(b"x")),
        Mutation::Pad(9, 12),
    ];
    let bytes = image(rt.alloc(), &mutations);
    drop(mutations);
    let bytes = bytes?;
    assert!(rt; bytes.as_slice() == b"abXzef\0\0x\0\0\0".as_slice());
    Ok(())
}

/// An append by client 1: its call's number, its round, its place, its record, and whether it is settled.
type Placed = (u64, u64, u64, &'static [u8], bool);

const FIRST: Placed = (3, 1, 0, A13, true);

const FAILED: Placed = (4, 1, 13, B13, false);

const AGAIN: Placed = (4, 2, 26, B13, true);

/// Up to which round a read may look, what it finds of the order of these three, and whether it may.
const SELECTIONS: [(u64, &[Placed], bool); 13] = [
    (1, &[FIRST], true),
    (1, &[FIRST, FAILED], true),
    // the settled one is left out
    (1, &[], false),
    (1, &[FAILED], false),
    // one of a later round
    (1, &[FIRST, FAILED, AGAIN], false),
    // out of order
    (1, &[FAILED, FIRST], false),
    // not of the order: another place, another call
    (1, &[FIRST, (4, 1, 14, B13, false)], false),
    (1, &[FIRST, (5, 1, 13, B13, false)], false),
    (2, &[FIRST, FAILED, AGAIN], true),
    (2, &[FIRST, AGAIN], true),
    // the settled one of round 2 is left out
    (2, &[FIRST, FAILED], false),
    // of no round at all
    (0, &[], true),
    (0, &[FIRST], false),
];

fn entries(alloc: Global, all: &[Placed]) -> Result<Vec<Entry>, AllocError> {
    let mut entries = Vec::new(alloc);
    for (number, round, at, record, is_settled) in all {
        let mutation = Mutation::Append(*at, Bytes::from_static(*record));
        entries.push(Entry::new(1, *number, *round, mutation, *is_settled))?;
    }
    Ok(entries)
}

fn is_selected(alloc: Global, last: u64, chosen: &[Placed]) -> Result<bool, AllocError> {
    let order = entries(alloc, &[FIRST, FAILED, AGAIN])?;
    let chosen = entries(alloc, chosen)?;
    Ok(is_selection(last, order.as_slice(), chosen.as_slice()))
}

#[test]
fn selections_up_to_a_round(rt: HostRuntime) -> Result<(), Fail> {
    for (last, chosen, wanted) in SELECTIONS {
        let is_selected = is_selected(rt.alloc(), last, chosen)?;
        assert!(rt; is_selected == wanted, "{} up to {last}", chosen.len());
    }
    Ok(())
}
