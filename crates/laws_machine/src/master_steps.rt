//! Laws of the whole machine beside a step of the master: it follows each change of the log.

ghost use Rattle.laws_machine.specs.MasterSteps.{ChangesAreTaken, CopiesMayComeAndGo, QuietRunsAreTaken, RecordsAreTaken};

/// What is logged nowhere: locks that a snapshot takes, and what Open and List come to.
pub fn quiet_runs_are_taken()
    ensures { QuietRunsAreTaken }
{}

/// Each record of the log, where it is due: names, snapshots, files that expire, chunks that are added, grants and copies.
pub fn records_are_taken()
    ensures { RecordsAreTaken }
{}

/// Copies that are given up, a state and its log, and a checkpoint that is read again: the machine does nothing.
pub fn copies_may_come_and_go()
    ensures { CopiesMayComeAndGo }
{}

/// All changes of a step, in order.
pub fn changes_are_taken()
    ensures { ChangesAreTaken }
{}
