//! Laws of reads in each run of the machine, in the words of calls and answers.

ghost use Rattle.promises.specs.Promises.{AnsweredReadsHaveAFile, InEachRun, LengthsReachRecords, NoOtherByteIsRead, ReadsAreSelections};

/// A read is answered what states of the run during the call gave of the file of its descriptor, and rounds up to which nothing settled is left out.
pub fn reads_are_selections()
    ensures file { InEachRun AnsweredReadsHaveAFile }
    ensures gives { InEachRun ReadsAreSelections }
{}

/// Each byte that a read was answered is zero, or was written there, or is a byte of a record appended, by a call that was made before the answer, on the file or on one that it goes back to by snapshots.
pub fn no_other_byte_is_read()
    ensures { InEachRun NoOtherByteIsRead }
{}

/// A Length that is asked after a record was answered reaches the record's end.
pub fn lengths_reach_records()
    ensures { InEachRun LengthsReachRecords }
{}
