//! Laws of a client's name calls beside what it has of files, at the whole machine.

ghost use Rattle.laws_machine.specs.FileOpenings.{NameCallsKeepFiles, NameStepsKeepFiles};

/// A name call that begins leaves what the client has of files.
pub fn name_calls_keep_files()
    ensures { NameCallsKeepFiles }
{}

/// So does a step of it; an Open that is answered adds the next descriptor, and its file's notes are forgotten.
pub fn name_steps_keep_files()
    ensures { NameStepsKeepFiles }
{}
