//! Laws of the whole machine beside a whole step of the master in a reached world, its stops and its restarts.

ghost use Rattle.laws_machine.specs.OverRounds.{GrantsAreLast, MastersEventsAreSteps, OpeningsEndNoRound, OpeningsExpireNothing, RestartsKeepRounds, RoundsThatEndAreOver, RoundsThatEndStayOver, StepsKeepRounds, StoppedStepsKeepRounds};
ghost use Rattle.laws_machine.specs.WholeSteps.{EndsAreReached, MasterStepsAreTaken, OnlyAsksAddChunks, RestartsAreTaken, StatesHaveTheirLogsFiles, StopsAreTaken};

/// A step of the master: the whole machine follows each change of its log, where calls asked for the chunks that are added, and a Name is of its client's open call.
pub fn master_steps_are_taken()
    ensures { MasterStepsAreTaken }
{}

/// A step that takes no Ask adds no chunk, so nothing is asked of it.
pub fn only_asks_add_chunks()
    ensures { OnlyAsksAddChunks }
{}

/// Where the step stops, the whole machine is beside the log that is left.
pub fn stops_are_taken()
    ensures { StopsAreTaken }
{}

/// Where the step goes through, it is beside the log in the end, and what was granted is open, but for chunks whose rounds may end later in the step.
pub fn ends_are_reached()
    ensures { EndsAreReached }
{}

/// At a restart it is beside each log that the opening makes.
pub fn restarts_are_taken()
    ensures { RestartsAreTaken }
{}

/// The master's state and its log have the same files, and so has the log without copies under way.
pub fn states_have_their_logs_files()
    ensures { StatesHaveTheirLogsFiles }
{}

/// Rounds end in a step only of chunks whose leases are over, as its moment has passed.
pub fn rounds_that_end_are_over()
    ensures { RoundsThatEndAreOver }
{}

/// Where a step stops, the round of each lease that isn't over is open again.
pub fn stopped_steps_keep_rounds()
    ensures { StoppedStepsKeepRounds }
{}

/// So they are over before a step that goes through, or after it.
pub fn rounds_that_end_stay_over()
    ensures { RoundsThatEndStayOver }
{}

/// Where a step goes through, the round of each lease that isn't over is open again, where leases last.
pub fn steps_keep_rounds()
    ensures { StepsKeepRounds }
{}

/// At a moment within the limit a tick of a master that is up, and a message that is delivered to it, are its steps.
pub fn masters_events_are_steps()
    ensures { MastersEventsAreSteps }
{}

/// The opening of a restart ends no round.
pub fn openings_end_no_round()
    ensures { OpeningsEndNoRound }
{}

/// Nor does it let a file expire.
pub fn openings_expire_nothing()
    ensures { OpeningsExpireNothing }
{}

/// So the round of each lease that isn't over stays open at a restart of the master.
pub fn restarts_keep_rounds()
    ensures { RestartsKeepRounds }
{}

/// Where leases last, nothing that a step of the master grants ends in the same step.
pub fn grants_are_last()
    ensures { GrantsAreLast }
{}
