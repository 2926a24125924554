//! Laws of the numbers of data for whose place clients wait.

ghost use Rattle.laws_machine.specs.WaitedNumbers.{WaitedNumbersAreOfTheOpenCall};

/// A number for whose data a client waits was used in the call that is open.
pub fn waited_numbers_are_of_the_open_call()
    ensures { WaitedNumbersAreOfTheOpenCall }
{}
