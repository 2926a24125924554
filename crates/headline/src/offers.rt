//! Laws of what the master tells clients of chunks, at the whole machine beside a cell.

ghost use Rattle.headline.specs.Offers.{OffersAreSo, ToldPlacesAreWithin};

/// What a step of the master tells clients of chunks is so at the machine, which offers it.
pub fn offers_are_so()
    ensures { OffersAreSo }
{}

/// Each chunk that a client was told ends within the counters' limit.
pub fn told_places_are_within()
    ensures { ToldPlacesAreWithin }
{}
