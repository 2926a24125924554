//! A law of runs by names that show nothing.

ghost use Rattle.machine_names.specs.UnseenRuns.{UnseenRunsLeaveClients};

/// In a run by names that shows nothing open calls stay open, no other call is, and clocks and settings are the same.
pub fn unseen_runs_leave_clients()
    ensures { UnseenRunsLeaveClients }
{}
