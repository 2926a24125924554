//! Laws of what became of a request on names, beside a master and a machine that are alike.

ghost use Rattle.laws_names.specs.OpenRequests.{AnsweredNamesAreKept, NamesStayOldOrOpen, OldOrOpenNamesAreRequests};

/// A Name that is old or of an open call, and may take effect, is of an open call.
pub fn old_or_open_names_are_requests()
    ensures { OldOrOpenNamesAreRequests }
{}

/// It stays so while the machine follows the master.
pub fn names_stay_old_or_open()
    ensures { NamesStayOldOrOpen }
{}

/// A changing call that may be answered as its client was told has its answer kept.
pub fn answered_names_are_kept()
    ensures { AnsweredNamesAreKept }
{}
