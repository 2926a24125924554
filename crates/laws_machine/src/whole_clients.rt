//! Laws of the whole machine beside a world as a client takes a step for its call on a file.

ghost use Rattle.laws_machine.specs.WholeClients.{FileStepsKeepWorldsWhole};

/// A step of a client for its open call on a file keeps a machine beside the world, where it goes on, is answered, or stops: if what may be numbered is for open calls, and what the client takes is so at the machine.
pub fn file_steps_keep_worlds_whole()
    ensures { FileStepsKeepWorldsWhole }
{}
