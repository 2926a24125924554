//! Laws of the calls that are refused because their range is too long.

ghost use Rattle.headline.specs.LongRefusals.{RefusalsForLengthAreSo};

/// A client that takes a refusal for its range's length has a call whose range is too long at the machine, where nothing of it is placed.
pub fn refusals_for_length_are_so()
    ensures { RefusalsForLengthAreSo }
{}
