//! Laws of a world without its first messages, in which the others are counted from 1.

ghost use Rattle.protocol_journal.specs.CutWorlds.{CutRunsAreRuns, CutWorldsGoAlike, RebasesAreRuns};

/// A world without its first messages goes as the whole one does, where the numbers of messages in events are raised by the count of
/// those that were dropped: no node looks at a message's number.
pub fn cut_worlds_go_alike()
    ensures { CutWorldsGoAlike }
{}

/// So a run of it is a run of the whole one, with the same answers, in which the first messages never come again.
pub fn cut_runs_are_runs()
    ensures { CutRunsAreRuns }
{}

/// After a restart of its master and of each server all its messages may be dropped: what is left is the world to which the same restarts
/// lead from the whole one, without its messages.
pub fn rebases_are_runs()
    ensures { RebasesAreRuns }
{}
