//! Laws of every lawful list of events from a new cell: calls, deliveries, losses, repeats, ticks, restarts, stops in a step, refused memory and rot.

ghost use Rattle.laws_machine.specs.ToldIndexes.{AsksAreForThePartInHand, LocationsAnswerTheirAsk, PartsGoToTheirChunk, HandlesAreToldAtOneIndex};

/// What a client waits to be told it asked for, for the part of its open call that is in hand.
pub fn asks_are_for_the_part_in_hand()
    ensures { AsksAreForThePartInHand }
{}

/// Each location that was told answers an ask of its receiver; one for a read or a write is of the index that was asked for.
pub fn locations_answer_their_ask()
    ensures { LocationsAnswerTheirAsk }
{}

/// The chunk by whose location a client reads, or goes with a write, was told to it for the index of the part in hand, of the file of its call.
pub fn parts_go_to_their_chunk()
    ensures { PartsGoToTheirChunk }
{}

/// Where clocks are kept, all locations that were told of one chunk with a granted round are of one index.
pub fn handles_are_told_at_one_index()
    ensures { HandlesAreToldAtOneIndex }
{}
