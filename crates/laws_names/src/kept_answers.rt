//! Laws of what the master keeps of name calls, in each reached world.

ghost use Rattle.laws_names.specs.KeptAnswers.{KeptAnswersWereAskedFor, WaitingSnapshotsWereAskedFor};

/// Each answer that the master keeps, or its log however a stop left it, is to a request that its client sent.
pub fn kept_answers_were_asked_for()
    ensures { KeptAnswersWereAskedFor }
{}

/// So is each snapshot that waits.
pub fn waiting_snapshots_were_asked_for()
    ensures { WaitingSnapshotsWereAskedFor }
{}
