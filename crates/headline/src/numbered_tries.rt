//! Laws of the tries of calls in the machine's chunks.

ghost use Rattle.headline.specs.NumberedTries.{QuietActionsAddNoTries, TriesStayNumbered};

/// No action but Place adds a try.
pub fn quiet_actions_add_no_tries()
    ensures { QuietActionsAddNoTries }
{}

/// The tries stay numbered at each event, where the machine places only what is numbered.
pub fn tries_stay_numbered()
    ensures { TriesStayNumbered }
{}
