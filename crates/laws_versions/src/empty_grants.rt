//! Laws of Grants and of what is numbered under their versions, in every lawful list of events from a new cell: restarts, stops in a step, losses, repeats, refused memory and rot.

ghost use Rattle.laws_versions.specs.EmptyGrants.{EntriesAreOfUsedGrants, NumberedVersionsHaveUsedGrants};

/// Where a server numbers a mutation under a version of a chunk, it refuses the Grant of that version in all that follows. So under the version of a Grant that may still be taken nothing was numbered.
pub fn numbered_versions_have_used_grants()
    ensures { NumberedVersionsHaveUsedGrants }
{}

/// Each entry of a chunk's order is of a version of this chunk, or of one of which this is a copy, whose Grant its server refuses.
pub fn entries_are_of_used_grants()
    ensures { EntriesAreOfUsedGrants }
{}
