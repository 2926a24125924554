//! Laws of every lawful list of events from a new cell: calls, deliveries, losses, repeats, ticks, restarts, stops in a step, refused memory and rot.

ghost use Rattle.laws_base.specs.Words.{LocationsNameCurrentHolders};

/// The master alone tells locations, and each holder that it names is told with the told round or a later version.
pub fn locations_name_current_holders()
    ensures { LocationsNameCurrentHolders }
{}
