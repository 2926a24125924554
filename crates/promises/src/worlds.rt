//! All that users rely on, of each run of the machine, and of each world that one explains.

ghost use Rattle.promises.specs.Promises.{InEachRun, Promises};
ghost use Rattle.promises.specs.ExplainedWorlds.{AnsweredRecordsAreShown, ExplainedWorldsArePromised, RunsOfWorldsKeepPromises};

/// Each run, and so each world that one explains, keeps the promises of records, writes and reads.
pub fn promises_are_kept()
    ensures runs { InEachRun Promises }
    ensures worlds { RunsOfWorldsKeepPromises }
    ensures explained { ExplainedWorldsArePromised }
{}

/// While the master is up and shows the file, an answered record stands in the order that the world shows of its chunk.
pub fn answered_records_are_shown()
    ensures { AnsweredRecordsAreShown }
{}
