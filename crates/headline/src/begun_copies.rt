//! Laws of the copies that begin in a step of the master.

ghost use Rattle.headline.specs.BegunCopies.{CopiesBeginNowhere, CopiesBeginWithoutARound};

/// A copy begins under a handle that was not used, and stands in no file after the step.
pub fn copies_begin_nowhere()
    ensures { CopiesBeginNowhere }
{}

/// So no round of it is open.
pub fn copies_begin_without_a_round()
    ensures { CopiesBeginWithoutARound }
{}
