//! Laws of every lawful list of events from a new cell, where clocks and disks are kept: calls, deliveries, losses, repeats, ticks, restarts, stops in a step, refused memory and rot.

ghost use Rattle.headline.specs.Runs.{AnswersAreARun, ReachedWorldsAreWhole, SettingsInRangeAreSo};

/// Beside each world that is reached, under settings in their ranges, goes the whole machine.
pub fn reached_worlds_are_whole()
    ensures { ReachedWorldsAreWhole }
{}

/// The headline: under settings in their ranges the answers of each such world are a run of the relaxed-file machine, which led to what the world shows.
pub fn answers_are_a_run()
    ensures { AnswersAreARun }
{}

/// What the headline asks of settings holds of all that are within their ranges.
pub fn settings_in_range_are_so()
    ensures { SettingsInRangeAreSo }
{}
