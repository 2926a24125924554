//! Laws of what an observer of primaries sees beside a machine that has the same chunks.

ghost use Rattle.laws_machine.specs.EntrySteps.{CopiesBeginUnseen, NumberedMutationsArePlaced, SettledEntriesAreSettled};

/// A mutation that a primary numbers in an open round takes its place at the machine, where the client's call asks for it.
pub fn numbered_mutations_are_placed()
    ensures { NumberedMutationsArePlaced }
{}

/// An entry of an open round that becomes settled does so at the machine, at the same place of the order.
pub fn settled_entries_are_settled()
    ensures { SettledEntriesAreSettled }
{}

/// As a copy begins under a new handle, the machine does nothing.
pub fn copies_begin_unseen()
    ensures { CopiesBeginUnseen }
{}
