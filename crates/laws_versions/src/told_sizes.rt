//! Laws of the shapes of files and sizes of chunks that messages carry, in every lawful list of events from a new cell: restarts, stops in a step, losses, repeats, refused memory and rot.

ghost use Rattle.laws_versions.specs.ToldSizes.{ChunksHaveOneSize, CopiesHaveTheirSourcesSize, EntriesAreOfTheirChunksSize, ForwardsTellTheGrantedSize, GrantsTellTheirFilesSizes, GrantsTellTheirRowsSize, ToldShapesAreTheirFiles, ToldShapesHaveTheGrantedSize};

/// A Forward tells the size of the chunk with which its version was granted: such a Grant was sent to its sender before.
pub fn forwards_tell_the_granted_size()
    ensures { ForwardsTellTheGrantedSize }
{}

/// A Grant tells the size of the chunks of each file that has its chunk as the step begins, and of the file that it is a copy for.
pub fn grants_tell_their_files_sizes()
    ensures { GrantsTellTheirFilesSizes }
{}

/// Where a chunk is, is told with the shape of each file that has it as the step begins, and of the file that it is a copy for.
pub fn told_shapes_are_their_files()
    ensures { ToldShapesAreTheirFiles }
{}

/// A version that an event grants, of a chunk that had a row before it and has one after it, is granted with the size of both rows.
pub fn grants_tell_their_rows_size()
    ensures { GrantsTellTheirRowsSize }
{}

/// All Grants of a chunk, whatever their versions, tell one size, of 64 bytes at least.
pub fn chunks_have_one_size()
    ensures { ChunksHaveOneSize }
{}

/// The Grants of a copy, and of a copy's copy, tell the size that those of its source tell.
pub fn copies_have_their_sources_size()
    ensures { CopiesHaveTheirSourcesSize }
{}

/// Each entry in the order of a chunk that was granted was placed in a round that was granted with the same size, of some chunk, and lies within it.
pub fn entries_are_of_their_chunks_size()
    ensures { EntriesAreOfTheirChunksSize }
{}

/// Where clocks are kept, a location that was told with a granted round tells the size with which its chunk was granted.
pub fn told_shapes_have_the_granted_size()
    ensures { ToldShapesHaveTheGrantedSize }
{}
