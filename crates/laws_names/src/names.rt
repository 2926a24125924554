//! Laws of one name call at the master, against the same call at a machine that has the same names.

ghost use Rattle.laws_names.specs.Names.{LooksReadTheNames, RecordsAreLogged, RecordsDoTheNameStep, RefusalsAreTheMachines, SnapshotRecordsAreLogged};

/// What a name call that meets no refusal logs is its record, or that names find no room.
pub fn records_are_logged()
    ensures call { RecordsAreLogged }
    ensures snapshot { SnapshotRecordsAreLogged }
{}

/// The record of a name call does to the names, and to the numbers of files, what the machine's name step does.
pub fn records_do_the_name_step()
    ensures { RecordsDoTheNameStep }
{}

/// The master refuses a name call for the machine's reason, or with Busy where a snapshot that waits has a lock that
/// conflicts and the call's paths are lawful.
pub fn refusals_are_the_machines()
    ensures { RefusalsAreTheMachines }
{}

/// What the master reads for Open and List is what the machine's step reads, where no snapshot makes the name busy.
pub fn looks_read_the_names()
    ensures { LooksReadTheNames }
{}
