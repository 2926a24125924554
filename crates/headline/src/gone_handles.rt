//! Laws of the spots from which handles go in an event of the master.

ghost use Rattle.headline.specs.GoneHandles.{ExpiriesComeFirst, OpeningsLetNothingGo, StepsLetGoWhatStood};

/// In a step of the master files expire before anything else is logged.
pub fn expiries_come_first()
    ensures { ExpiriesComeFirst }
{}

/// So what goes in a step stood so in the log before it.
pub fn steps_let_go_what_stood()
    ensures { StepsLetGoWhatStood }
{}

/// Nothing goes as a master opens.
pub fn openings_let_nothing_go()
    ensures { OpeningsLetNothingGo }
{}
