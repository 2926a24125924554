//! Where records go in a file's last chunk, by hand.

use record_append::place;
use record_append::placing::Placing;

const MOST: u64 = u64::MAX;

/// The bytes of the chunk and of the record, how many a chunk holds, and where the record goes: at most a quarter of a chunk is taken,
/// and no sum wraps.
const PLACES: [(u64, u64, u64, Placing); 18] = [
    (0, 13, 64, Placing::At(0)),
    (39, 13, 64, Placing::At(39)),
    (48, 16, 64, Placing::At(48)),
    (49, 16, 64, Placing::Pad(49)),
    (52, 13, 64, Placing::Pad(52)),
    (63, 1, 64, Placing::At(63)),
    (63, 2, 64, Placing::Pad(63)),
    (64, 1, 64, Placing::Full),
    (64, 0, 64, Placing::Full),
    (0, 0, 64, Placing::At(0)),
    (0, 17, 64, Placing::TooLong),
    (64, 17, 64, Placing::TooLong),
    (0, 17, 71, Placing::At(0)),
    (0, 18, 71, Placing::TooLong),
    (MOST - 1, MOST / 4, MOST, Placing::Pad(MOST - 1)),
    (MOST, 1, 64, Placing::Full),
    (MOST, 0, 64, Placing::Full),
    (0, MOST, MOST, Placing::TooLong),
];

/// The first of these that goes elsewhere.
fn first_elsewhere(rows: &[(u64, u64, u64, Placing)]) -> Option<(u64, u64, u64)> {
    for (length, size, chunk, placing) in rows {
        if place(*length, *size, *chunk) != *placing {
            return Some((*length, *size, *chunk));
        }
    }
    None
}

#[test]
fn records_go_behind_a_chunk_or_into_the_next(rt: HostRuntime) {
    assert_eq!(rt; first_elsewhere(&PLACES), None);
}
