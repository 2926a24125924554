//! What the whole machine explains of the world that it is beside.

ghost use Rattle.headline.specs.Explanations.{FilesAreSeen, WholeWorldsAreExplained};

/// While the master is up, its files are shown.
pub fn files_are_seen()
    ensures { FilesAreSeen }
{}

/// The machine beside a world has a run with the world's calls and answers, and agrees with the files, orders and replicas that are shown, also while the master is down, when it may have a chunk more, and with the names while it is up.
pub fn whole_worlds_are_explained()
    ensures { WholeWorldsAreExplained }
{}
