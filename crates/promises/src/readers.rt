//! Laws of readers that open a file again before they read it, in the words of calls and answers.

ghost use Rattle.promises.specs.Promises.{InEachRun};
ghost use Rattle.promises.specs.Readers.{AnswersReachRecords, AnswersReachWrites, ReadersMissNoAppend, ReadersMissNoWrite, ReadersMissNothing, ReopenedFilesShowRecords, ReopenedFilesShowWrites, WholeChunksMissNothing};

/// A read that is made after its reader opened the file of an answered record again, that begins no later than the record, and whose answer reaches past it, shows it whole, whatever rounds it names, until a later mutation covers some of it.
pub fn reopened_files_show_records()
    ensures { InEachRun ReopenedFilesShowRecords }
{}

/// A read that is made after its reader opened the file of an answered record again is answered bytes up to the record's end, and so shows the record until a later mutation covers some of it, where its range begins in the record's chunk, no later than the record, and reaches that end; in a file that is only appended to, also through the files that it goes back to by snapshots, a read of the whole chunk shows it always.
pub fn readers_miss_nothing()
    ensures reach { InEachRun AnswersReachRecords }
    ensures any { InEachRun ReadersMissNothing }
    ensures appended { InEachRun ReadersMissNoAppend }
    ensures whole { InEachRun WholeChunksMissNothing }
{}

/// A read that is made after its reader opened the file of an answered write again, that begins no later than a part of it, and whose answer reaches past the part, shows the part, whatever rounds it names, until a later mutation covers some of it.
pub fn reopened_files_show_writes()
    ensures { InEachRun ReopenedFilesShowWrites }
{}

/// A read that is made after its reader opened the file of an answered write again is answered bytes up to the end of a part of the write, and so shows the part until a later mutation covers some of it, where its range begins in the part's chunk, no later than the part, and reaches that end.
pub fn readers_miss_no_write()
    ensures reach { InEachRun AnswersReachWrites }
    ensures any { InEachRun ReadersMissNoWrite }
{}
