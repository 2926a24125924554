//! Laws of every lawful list of events from a new cell: restarts, stops in a step, losses, repeats, refused memory and rot.

ghost use Rattle.laws_base.specs.CausedWords.{ForwardsNameEntries, AckedSerialsAreApplied, ImagesAreOfReplicas};

/// Each Forward that was sent names an entry of its chunk's order by round and serial, with its data and its mutation.
pub fn forwards_name_entries()
    ensures { ForwardsNameEntries }
{}

/// A server that sends an Acked has, after that step, a replica of that version with that serial.
pub fn acked_serials_are_applied()
    ensures { AckedSerialsAreApplied }
{}

/// An Image has the version, the serial and the bytes of its server's replica.
pub fn images_are_of_replicas()
    ensures { ImagesAreOfReplicas }
{}
