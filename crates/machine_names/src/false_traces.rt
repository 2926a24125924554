//! Traces of several clients, or of several files, that are not runs of the relaxed-file machine. Each is shown by the laws
//! on its states.

ghost use Rattle.machine_names.specs.FalseTraces.{NoByteOfAnotherFile, NoSkippedRecord, NoWriteIntoSnapshot, NoWriteThroughSnapshot};

/// In no run do two clients open a name, one append bytes and read them back, and the other then read nothing where they stand, naming a round no earlier, with nothing else seen in between.
pub fn no_skipped_record()
    ensures { NoSkippedRecord }
{}

/// In no run, with nothing seen between each of these calls and its answer, does a file show a byte, not zero, that was written to another one alone, be it a snapshot of it or the file that it was taken of.
pub fn no_byte_of_another_file()
    ensures files { NoByteOfAnotherFile }
    ensures copy { NoWriteThroughSnapshot }
    ensures source { NoWriteIntoSnapshot }
{}
