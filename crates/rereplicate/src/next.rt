//! The clone of a tick.

ghost use Rattle.std.specs.Prelude.{◌≡◌};
ghost use Rattle.std.specs.FinMap as finite;
ghost use Rattle.rereplicate.specs.Clones.{next_clone, offer_of, offer_at, best_offer};
ghost use Rattle.rereplicate.specs.Whole.{AreWholeBut};

use crate::clone_order::{CloneOrder, Offer, better};
use crate::holders::Holders;
use crate::servers::{count_current, source, target};
use crate::whole::Doubted;
use chunk_table::chunk::Chunk;
use chunk_table::table::Table;
use gfs_types::ids::{Handle, Moment, Version};
use leases::master::ended;

/// The clone that is ordered now, if any: of the chunks with a granted version and without a lease that have a source and a target,
/// the one furthest below its goal in present current holders, then the lowest handle. The source is the lowest of these holders
/// whose version is closed; the target is the present server without a replica that has the fewest chunks, then the lowest number.
/// Takes no memory, and goes over all handles that were given out.
pub fn next<H: Holders>(table: &Table, holders: &H, now: Moment) -> Option<CloneOrder>
    ensures { result ≡ next_clone (H.servers holders.now) now.0 table.now.table.chunks }
{
    match best(table, holders, now) {
        Some(offer) => Some(offer.into_order()),
        None => None,
    }
}

/// The same where no chunk lacks replicas but some of the doubted ones. Goes over these alone.
pub fn next_of<H: Holders>(
    table: &Table,
    holders: &H,
    now: Moment,
    doubted: &Doubted,
) -> Option<CloneOrder>
    requires whole { AreWholeBut (H.servers holders.now) table.now.table.chunks doubted.now }
    ensures { result ≡ next_clone (H.servers holders.now) now.0 table.now.table.chunks }
{
    match best_of(table, holders, now, doubted) {
        Some(offer) => Some(offer.into_order()),
        None => None,
    }
}

fn best<H: Holders>(table: &Table, holders: &H, now: Moment) -> Option<Offer>
    ensures { result ≡ best_offer (H.servers holders.now) now.0 (finite.entries table.now.table.chunks) }
{
    table.is_sound();
    let mut best = None;
    for number in 0..table.next_handle().0 {
        let handle = Handle(number);
        best = better(best, offer_at(table, holders, handle, now));
    }
    best
}

fn best_of<H: Holders>(table: &Table, holders: &H, now: Moment, doubted: &Doubted) -> Option<Offer>
    requires whole { AreWholeBut (H.servers holders.now) table.now.table.chunks doubted.now }
    ensures { result ≡ best_offer (H.servers holders.now) now.0 (finite.entries table.now.table.chunks) }
{
    table.is_sound();
    let mut best = None;
    for (number, _) in doubted.iter() {
        let handle = Handle(*number);
        best = better(best, offer_at(table, holders, handle, now));
    }
    best
}

// The clone of the chunk with this handle.
fn offer_at<H: Holders>(table: &Table, holders: &H, handle: Handle, now: Moment) -> Option<Offer>
    ensures { result ≡ offer_at (H.servers holders.now) now.0 table.now.table.chunks handle.0 }
{
    match table.chunk(handle) {
        Some(chunk) => offer_of(chunk, holders, handle, now),
        None => None,
    }
}

// The clone of one chunk, where it lacks replicas and may be copied.
fn offer_of<H: Holders>(chunk: &Chunk, holders: &H, handle: Handle, now: Moment) -> Option<Offer>
    ensures { result ≡ offer_of (H.servers holders.now) now.0 handle.0 chunk.now }
{
    if chunk.granted() == Version(0) || !ended(chunk, now) {
        return None;
    }
    let missing = u64::from(chunk.shape().goal).saturating_sub(count_current(
        holders, chunk, handle,
    ));
    if missing == 0 {
        return None;
    }
    let Some(source) = source(holders, chunk, handle) else {
        return None;
    };
    let Some(target) = target(holders, handle) else {
        return None;
    };
    let order = CloneOrder {
        handle,
        version: source.version,
        source: source.server,
        target,
    };
    Some(Offer { order, missing })
}
