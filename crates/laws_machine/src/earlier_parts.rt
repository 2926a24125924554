//! A law of every lawful list of events from a new cell: calls, deliveries, losses, repeats, ticks, restarts, stops in a step, refused memory and rot.

ghost use Rattle.laws_machine.specs.EarlierParts.{EarlierPartsAreSettled};

/// While a write is open, as when its client asks for the chunk of a part, each earlier part has a settled entry with its bytes at its place, in the order of the chunk that the client was told for that part's index of its file.
pub fn earlier_parts_are_settled()
    ensures { EarlierPartsAreSettled }
{}
