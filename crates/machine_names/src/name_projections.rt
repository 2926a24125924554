//! Laws of a machine that was run by names alone, beside a whole one.

ghost use Rattle.machine_names.specs.NameProjections.{ChunkActionsKeepNames, FileCallsKeepNames, NameActionsAreTaken};

/// Each action on names that the machine by names alone takes, the whole one may take too, where a snapshot finds its rounds closed, and no call is open where one is made.
pub fn name_actions_are_taken()
    ensures { NameActionsAreTaken }
{}

/// What the whole machine does to chunks leaves its names.
pub fn chunk_actions_keep_names()
    ensures { ChunkActionsKeepNames }
{}

/// So do calls on files and their answers.
pub fn file_calls_keep_names()
    ensures { FileCallsKeepNames }
{}
