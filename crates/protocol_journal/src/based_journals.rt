//! Laws of a journal behind a base, which counts its messages anew.

ghost use Rattle.protocol_journal.specs.Journals.{BasesChangeNothingSeen, JournalsWithBasesAreLawful, JournalsWithoutBasesAreWhole, WholeJournalsGrow};

/// A lawful journal with a base grows by a step of one of its nodes, which takes a message by its number in this journal.
pub fn whole_journals_grow()
    ensures { WholeJournalsGrow }
{}

/// Entries that lead on from where a lawful base led, with messages counted anew, are lawful behind it.
pub fn journals_with_bases_are_lawful()
    ensures { JournalsWithBasesAreLawful }
{}

/// A journal without a base is its whole list: nothing is said otherwise of it.
pub fn journals_without_bases_are_whole()
    ensures { JournalsWithoutBasesAreWhole }
{}

/// The same calls, answers and clocks are seen of entries under raised numbers.
pub fn bases_change_nothing_seen()
    ensures { BasesChangeNothingSeen }
{}
