//! Laws of what the master and servers answer a client, at the whole machine.

ghost use Rattle.laws_machine.specs.FileAnswers.{CollectedFilesAreRefused, LengthsAreMeasured, LocationsAreOffered, NoChunkIsOffered, NotesAreOfOpenedRounds, ReadsAreLooks, SettledEntriesAreSuccesses};

/// A client's note of a chunk is no later than the chunk's last round.
pub fn notes_are_of_opened_rounds()
    ensures { NotesAreOfOpenedRounds }
{}

/// Where the master tells a chunk of the file in its last round, the machine may offer it, and the client may note it.
pub fn locations_are_offered()
    ensures { LocationsAreOffered }
{}

/// Where it tells that there is no such chunk, the machine may offer so.
pub fn no_chunk_is_offered()
    ensures { NoChunkIsOffered }
{}

/// A call on a collected file may be refused for it.
pub fn collected_files_are_refused()
    ensures { CollectedFilesAreRefused }
{}

/// Bytes of a replica that shows a selection of the chunk's order are a look of the client, under the round that it noted.
pub fn reads_are_looks()
    ensures { ReadsAreLooks }
{}

/// The length of such a replica is one that the client may measure.
pub fn lengths_are_measured()
    ensures { LengthsAreMeasured }
{}

/// A settled entry of the call in the chunk that it uses, of no later round than was told, has the part done.
pub fn settled_entries_are_successes()
    ensures { SettledEntriesAreSuccesses }
{}
