//! A law of every lawful list of events from a new cell: calls, deliveries, losses, repeats, ticks, restarts, stops in a step, refused memory and rot.

ghost use Rattle.laws_machine.specs.RefusedAsks.{RefusalsOfTheMasterAnswerAnAsk};

/// Each refusal that the master sent answers an ask of its receiver, under that number.
pub fn refusals_of_the_master_answer_an_ask()
    ensures { RefusalsOfTheMasterAnswerAnAsk }
{}
