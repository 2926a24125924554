//! Laws of a client's steps for its call on a file, at the whole machine.

ghost use Rattle.laws_machine.specs.FileSteps.{FileStepsAreFollowed};

/// The machine follows each step of a client for its call on a file, if what it takes is so at the machine: it notes what was told, and answers what was done.
pub fn file_steps_are_followed()
    ensures { FileStepsAreFollowed }
{}
