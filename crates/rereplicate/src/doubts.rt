//! Chunks that may lack replicas from now on (section 4.3). Each call is told up to which moment no other chunk lacks any, as far as
//! is known, and answers what is known then. Where memory is refused for a chunk, that is nothing more.

ghost use Rattle.std.specs.Prelude.{◌≡◌, true, Some, IfSome};
ghost use Rattle.std.specs.Option.{option_copied};
ghost use Rattle.std.specs.FinMap as map;
ghost use Rattle.rereplicate.specs.Doubts.{held_in, IsDoubtedUnless, AreDoubted, AreDoubtedAsChanged};

use crate::whole::Doubted;
use ordered_map::OrderedMap;
use std::alloc::Global;

/// One chunk.
pub fn doubt(until: Option<u64>, doubted: &mut Doubted, handle: u64) -> Option<u64>
    ensures kept { IfSome result (λ moment. until ≡ Some moment) }
    ensures doubted { IfSome result (λ _. doubted.new ≡ map.insert doubted.old handle tt) }
{
    let Some(moment) = until else {
        return None;
    };
    let Ok(()) = doubted.insert(handle, ()) else {
        return None;
    };
    Some(moment)
}

/// Each chunk of which a server holds another version than it did.
pub fn doubt_changed(
    alloc: Global,
    until: Option<u64>,
    doubted: &mut Doubted,
    old: Option<&OrderedMap<u64>>,
    new: &OrderedMap<u64>,
) -> Option<u64>
    ensures kept { IfSome result (λ moment. until ≡ Some moment) }
    ensures doubted { IfSome result (λ _. AreDoubtedAsChanged doubted.old doubted.new (held_in (option_copied old.entry)) new.now) }
{
    match old {
        Some(old) => doubt_both(until, doubted, old, new),
        None => {
            let none = OrderedMap::new(alloc);
            doubt_both(until, doubted, &none, new)
        }
    }
}

fn doubt_both(
    until: Option<u64>,
    doubted: &mut Doubted,
    old: &OrderedMap<u64>,
    new: &OrderedMap<u64>,
) -> Option<u64>
    ensures kept { IfSome result (λ moment. until ≡ Some moment) }
    ensures doubted { IfSome result (λ _. AreDoubtedAsChanged doubted.old doubted.new old.now new.now) }
{
    let first = doubt_lost(until, doubted, old, new);
    doubt_lost(first, doubted, new, old)
}

// Each chunk whose version here isn't its version there.
fn doubt_lost(
    until: Option<u64>,
    doubted: &mut Doubted,
    here: &OrderedMap<u64>,
    there: &OrderedMap<u64>,
) -> Option<u64>
    ensures kept { IfSome result (λ moment. until ≡ Some moment) }
    ensures doubted { IfSome result (λ _. AreDoubted doubted.old doubted.new here.now there.now) }
{
    let mut kept = until;
    for (handle, version) in here.iter() {
        kept = doubt_unless(kept, doubted, there, *handle, *version);
    }
    kept
}

// The chunk, unless its version there is this one.
fn doubt_unless(
    until: Option<u64>,
    doubted: &mut Doubted,
    there: &OrderedMap<u64>,
    handle: u64,
    version: u64,
) -> Option<u64>
    ensures kept { IfSome result (λ moment. until ≡ Some moment) }
    ensures doubted { IfSome result (λ _. IsDoubtedUnless doubted.old doubted.new there.now handle version) }
{
    if stands(there, handle, version) {
        until
    } else {
        doubt(until, doubted, handle)
    }
}

fn stands(there: &OrderedMap<u64>, handle: u64, version: u64) -> bool
    ensures { result ≡ true → map.get there.now handle ≡ Some version }
{
    match there.get(handle) {
        Some(held) => *held == version,
        None => false,
    }
}
