//! Laws of the machine's open rounds from each world of a cell to the next.

ghost use Rattle.laws_machine.specs.Rounds.{EachEventKeepsRounds, EndedRoundsAreOver, LeasedChunksStandOnce, LogsWithinStepsEndLeases, OpenRoundsHaveOneSpot, OtherEventsKeepRounds, SharedChunksInEachLogHaveNoLease, SourcesOfGrantedCopiesHaveNoLease};

/// At an event that is no step of the master nothing is granted, so the round of each lease that isn't over stays open, where rounds end only of chunks whose leases are over.
pub fn other_events_keep_rounds()
    ensures { OtherEventsKeepRounds }
{}

/// The leases of a chunk of which the master's step may end rounds are over before the step or after it.
pub fn ended_rounds_are_over()
    ensures { EndedRoundsAreOver }
{}

/// Each lease of a chunk that has several owners in a log of the master is over, for each way to decide what of the log was under way.
pub fn shared_chunks_in_each_log_have_no_lease()
    ensures { SharedChunksInEachLogHaveNoLease }
{}

/// So a chunk stands at one place of that log at most, or the lease is over.
pub fn leased_chunks_stand_once()
    ensures { LeasedChunksStandOnce }
{}

/// The open rounds of such a chunk are at one place of the machine.
pub fn open_rounds_have_one_spot()
    ensures { OpenRoundsHaveOneSpot }
{}

/// From one world to the next the round of each lease that isn't over is open, where rounds end only of chunks of which they may, and what is granted has its round open.
pub fn each_event_keeps_rounds()
    ensures { EachEventKeepsRounds }
{}

/// After each change that a step of the master makes of its log: of a chunk that several files own there, and of each version but the granted one, the leases that were granted before are over after the step.
pub fn logs_within_steps_end_leases()
    ensures { LogsWithinStepsEndLeases }
{}

/// Each lease of a chunk whose copy a step of the master grants is over before the step.
pub fn sources_of_granted_copies_have_no_lease()
    ensures { SourcesOfGrantedCopiesHaveNoLease }
{}
