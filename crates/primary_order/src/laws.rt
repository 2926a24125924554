//! What holds of a primary's order over any list of calls. The functions do nothing: their clauses are the laws.

ghost use Rattle.primary_order.specs.Laws.{SerialsRiseByOne, NewAtMostOnce, KnownIsNeverNew, SuccessNeedsEveryMember};

/// The serials of one lease rise by one, whatever calls come in between; so none is given twice.
pub fn serials_rise_by_one()
    ensures { SerialsRiseByOne }
{}

/// Under one lease a client's number is answered New at most once.
pub fn new_at_most_once()
    ensures { NewAtMostOnce }
{}

/// A number that is known, as one whose refusal was kept, is never answered New.
pub fn known_is_never_new()
    ensures { KnownIsNeverNew }
{}

/// A success implies that every member acknowledged, after the serial was given and while the lease counted.
pub fn success_needs_every_member()
    ensures { SuccessNeedsEveryMember }
{}
