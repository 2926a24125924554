//! Laws of one step on the names: the machine is allowed its action, and the master and the machine are alike again.

ghost use Rattle.laws_names.specs.NameSteps.{BusyCallsFindAHolder, ChunksChangeNoNames, ExpiredFilesAreCollected, FullNamesAreFound, LocksAreTaken, LocksGoBack, LooksAreSteps, RecordsAreSteps, RefusalsAreSteps};

/// The record of a name call that takes effect is the machine's step, and so is one that the names refuse.
pub fn records_are_steps()
    ensures done { RecordsAreSteps }
    ensures refused { RefusalsAreSteps }
{}

/// A call that is Busy at the master finds a holder of a conflicting lock at the machine.
pub fn busy_calls_find_a_holder()
    ensures { BusyCallsFindAHolder }
{}

/// A call for which there is no room at the master may find none at the machine.
pub fn full_names_are_found()
    ensures { FullNamesAreFound }
{}

/// What a Look comes to at the master is an outcome of the call at the machine.
pub fn looks_are_steps()
    ensures { LooksAreSteps }
{}

/// A snapshot that begins to wait takes its locks at the machine; when they go back at the master, nothing else changes.
pub fn locks_are_held_by_both()
    ensures taken { LocksAreTaken }
    ensures back { LocksGoBack }
{}

/// A hidden file that expires at the master is collected at the machine.
pub fn expired_files_are_collected()
    ensures { ExpiredFilesAreCollected }
{}

/// Records about chunks, and copies that are given up, need no action of the machine by names.
pub fn chunks_change_no_names()
    ensures { ChunksChangeNoNames }
{}
