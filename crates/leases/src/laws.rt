//! What holds of a held lease over any list of calls, and of an extension of one. The functions do nothing: their clauses are the laws.

ghost use Rattle.leases.specs.Laws.{NeverCountsAgain, EndNeverMovesEarlier};

/// A lease that does not count never counts again, whatever calls and moments follow.
pub fn never_counts_again()
    ensures { NeverCountsAgain }
{}

/// An extension moves no end earlier.
pub fn end_never_moves_earlier()
    ensures { EndNeverMovesEarlier }
{}
