//! A law of every lawful list of events from a new cell: calls, deliveries, losses, repeats, ticks, restarts, stops in a step, refused memory and rot.

ghost use Rattle.laws_base.specs.LeasedAnswers.{AnswersAreGivenUnderLeases};

/// A Done of a client's data, or a refusal by which its attempt is over, is sent only where a server takes a step, after the Mutate was sent, as the primary of the chunk, under a lease of the version that the Mutate names, which counts.
pub fn answers_are_given_under_leases()
    ensures { AnswersAreGivenUnderLeases }
{}
