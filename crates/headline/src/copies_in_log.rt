//! Laws of the copies that are under way in the master's log.

ghost use Rattle.headline.specs.CopiesInLog.{CopiesInTheLogAreOver};

/// Each lease of a copy under way in the log is over, also of one that the master gave up since.
pub fn copies_in_the_log_are_over()
    ensures { CopiesInTheLogAreOver }
{}
