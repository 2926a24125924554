//! What a replica may have of a chunk's order (section 2.7.1 of the Google File System paper).

ghost use Rattle.std.specs.Prelude.{◌≡◌, ◌≤◌, ◌↔◌, Some, IsTrue, slice_get};
ghost use Rattle.relaxed_file.specs.Order.{IsSelection};

use crate::entry::Entry;

/// Whether the chosen entries are a selection of the order up to a round. An entry is taken as soon as it is the next of the
/// chosen ones: where it is not settled and stands again later, either may be the one that was left out.
pub fn is_selection(last: u64, order: &[Entry], chosen: &[Entry]) -> bool
    ensures { IsTrue result ↔ IsSelection last order.now chosen.now }
{
    let mut taken = 0;
    for entry in order {
        if is_next(last, entry, chosen, taken) {
            taken += 1;
        } else if entry.is_settled() && entry.round() <= last {
            return false;
        }
    }
    taken == chosen.len()
}

/// Whether an entry of a round up to the last is the chosen one at this place.
fn is_next(last: u64, entry: &Entry, chosen: &[Entry], place: usize) -> bool
    ensures { IsTrue result ↔ (entry.now.round ≤ last) × (slice_get chosen.now place ≡ Some entry.now) }
{
    match chosen.get(place) {
        None => false,
        Some(next) => entry.round() <= last && next.equals(entry),
    }
}
