//! Laws of runs by name calls, hidden files that expire and the clock alone.

ghost use Rattle.machine_names.specs.NameRuns.{NameRunsCloseAllRounds, NameRunsGoOn, NameRunsHaveNoChunks};

/// Such a run leaves each file without a chunk, so a snapshot finds all rounds closed.
pub fn name_runs_close_all_rounds()
    ensures chunks { NameRunsHaveNoChunks }
    ensures rounds { NameRunsCloseAllRounds }
{}

/// Two such runs, one after the other, are one.
pub fn name_runs_go_on()
    ensures { NameRunsGoOn }
{}
