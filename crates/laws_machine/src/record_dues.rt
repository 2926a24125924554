//! Laws of the records that steps of the master log: what the whole machine needs to follow them.

ghost use Rattle.laws_machine.specs.GrantedRecords.{SentGrantsAreLogged, StepsGrantWhatWasAttempted};
ghost use Rattle.laws_machine.specs.RecordDues.{StepsLogWhatIsDue};

/// At each record and each checkpoint of a step the log says what the machine asks of it, but for what clients asked for.
pub fn steps_log_what_is_due()
    ensures { StepsLogWhatIsDue }
{}

/// Each Grant of a step is of what was attempted before it; a copy that is granted was under way before it, and of its source nothing was granted since the step began.
pub fn steps_grant_what_was_attempted()
    ensures { StepsGrantWhatWasAttempted }
{}

/// Each Grant that a step sends has its record in the log.
pub fn sent_grants_are_logged()
    ensures { SentGrantsAreLogged }
{}
