//! Laws of lawful journals.

ghost use Rattle.protocol_journal.specs.Laws.{JournalsAreRuns, JournalsGrow};

/// A lawful journal is one list of the world's events, each with some choice: it leads to a world with the states that the journal's nodes are in, its messages, its calls and answers, the orders of its chunks, and whether its clocks were kept. So each law of worlds that are reached is one of journals.
pub fn journals_are_runs()
    ensures { JournalsAreRuns }
{}

/// A lawful journal with one entry more is lawful, where its node stands as its own entries left it and may take what it takes, which was sent to it, and the entry is what that node's step gives, and how it is seen, for some choice.
pub fn journals_grow()
    ensures { JournalsGrow }
{}
