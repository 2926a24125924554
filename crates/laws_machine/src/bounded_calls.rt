//! Laws of every lawful list of events from a new cell: calls, deliveries, losses, repeats, ticks, restarts, stops in a step, refused memory and rot.

ghost use Rattle.laws_machine.specs.BoundedCalls.{PartsHaveFewEntries, EntriesAreOfFew, PlacingsAreOfFewEntries, CallsHaveFewRecords, RecordsArePlacedAsFew};

/// In all orders together, a part of a call has entries that are no pads of at most as many numbers as its client has attempts, and of one where it has none.
pub fn parts_have_few_entries()
    ensures { PartsHaveFewEntries }
{}

/// Where clocks are kept, each entry that is no pad is of its own call, for a part of it which has so few.
pub fn entries_are_of_few()
    ensures { EntriesAreOfFew }
{}

/// Where clocks are kept, as a mutation that is no pad is numbered, fewer numbers of its part of its client's last call have an entry that is no pad.
pub fn placings_are_of_few_entries()
    ensures { PlacingsAreOfFewEntries }
{}

/// Where clocks are kept, an append has records of at most as many numbers, in all orders together, as its client has attempts, and of one where it has none.
pub fn calls_have_few_records()
    ensures { CallsHaveFewRecords }
{}

/// Where clocks are kept, as a record is numbered, fewer numbers of its client's last call have one.
pub fn records_are_placed_as_few()
    ensures { RecordsArePlacedAsFew }
{}
