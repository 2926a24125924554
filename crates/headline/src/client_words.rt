//! Laws of what clients say, and of the numbers under which they are answered.

ghost use Rattle.headline.specs.ClientWords.{AnswersCarryUsedNumbers, ClientsTellNothing};

/// A client asks, and tells no other what was asked.
pub fn clients_tell_nothing()
    ensures { ClientsTellNothing }
{}

/// A location, what a reading gave, or a refusal other than NoLease that was sent to a client that is up is under a number that it used.
pub fn answers_carry_used_numbers()
    ensures { AnswersCarryUsedNumbers }
{}
