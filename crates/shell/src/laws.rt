//! A law of each cell.

ghost use Rattle.cell_simulator.specs.Answered.{AnswersOnce};
ghost use Rattle.cell_world.specs.Held.{HeldCell};
ghost use Rattle.shell.specs.Once.{takes_call, takes_steps};
ghost use Rattle.shell.specs.Worlds.{meaning_of};

/// While a client takes steps, each call that it takes is open until it is answered, once, and nothing else is answered.
pub fn calls_are_answered_once()
    ensures { AnswersOnce (meaning_of (λ (h : HeldCell). h)) takes_steps takes_call }
{}
