//! The headline and what users rely on, as laws of all that a cell may hold.

ghost use Rattle.cell_core.specs.Headline.{AreAnswersARun, ArePromisesKept};
ghost use Rattle.cell_world.specs.Held.{HeldCell};

/// A law of all that a cell of settings in their ranges may hold: of each world that it stands for and that lawful events led to, a run of the machine has the calls and answers, and led to what it shows.
pub fn answers_are_a_run()
    ensures { (h : HeldCell) → AreAnswersARun h }
{}

/// What users rely on, of all that a cell of settings in their ranges may hold: answered records and writes stand and are read, answered records share no place, a client reads its own successes, and nobody reads a byte that nobody wrote, but for zeros.
pub fn promises_are_kept()
    ensures { (h : HeldCell) → ArePromisesKept h }
{}
