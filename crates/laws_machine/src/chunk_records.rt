//! Laws of what records of the master's log are at a machine that has the same chunks.

ghost use Rattle.laws_machine.specs.ChunkRecords.{AddedChunksAreAdded, CollectedFilesKeepTheirChunks, CopiesTakeTheirPlace, GrantsOpenRounds, NewFilesHaveNoChunk, OtherChangesKeepChunks, RoundsAreClosed, RowsOfNoFileMayChange, SnapshotsCopyChunks};

/// What changes no file's list, nothing that was granted, no order and no file of the machine keeps chunks alike.
pub fn other_changes_keep_chunks()
    ensures { OtherChangesKeepChunks }
{}

/// So does a row that comes or goes of a handle that no file has: a copy that begins or is given up.
pub fn rows_of_no_file_may_change()
    ensures { RowsOfNoFileMayChange }
{}

/// Where the log adds a chunk, the machine adds one, if the call may have it.
pub fn added_chunks_are_added()
    ensures { AddedChunksAreAdded }
{}

/// A file that is created has no chunk in the log, nor at the machine.
pub fn new_files_have_no_chunk()
    ensures { NewFilesHaveNoChunk }
{}

/// A grant of a higher version of a chunk that stands at one place alone: the machine closes the round before it and opens this one.
pub fn grants_open_rounds()
    ensures { GrantsOpenRounds }
{}

/// A grant of a copy, which takes its source's place in the file: a round opens in the file's chunk, which keeps its order.
pub fn copies_take_their_place()
    ensures { CopiesTakeTheirPlace }
{}

/// The machine may close each open round below a snapshot's source.
pub fn rounds_are_closed()
    ensures { RoundsAreClosed }
{}

/// The files that a snapshot adds have their source's chunks in the log and at the machine.
pub fn snapshots_copy_chunks()
    ensures { SnapshotsCopyChunks }
{}

/// A file that is collected keeps its chunks at the machine; a round of one of them that is still open stays so, though no file has the chunk.
pub fn collected_files_keep_their_chunks()
    ensures { CollectedFilesKeepTheirChunks }
{}
