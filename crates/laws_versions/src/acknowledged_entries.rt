//! Laws of every lawful list of events from a new cell: restarts, stops in a step, losses, repeats, refused memory and rot.

ghost use Rattle.laws_versions.specs.AcknowledgedEntries.{AcknowledgedEntriesAreApplied, PrimariesHaveTheirRound, SettledEntriesAreAtAllMembers};
ghost use Rattle.laws_versions.specs.SkippedRounds.{OrdersSkipNoEntry, UntakenVersionsHaveNoEntry, CopiesHaveTheirSourcesOrder};
ghost use Rattle.laws_versions.specs.UngrantedChunks.{UngrantedChunksHaveNoEntry};
ghost use Rattle.laws_versions.specs.Selections.{ReplicasHaveSettledEntries, ImagesHaveSettledEntries, ReplicasAreSelections, RecordsComeBehindSettledEntries};

/// Where clocks and disks are kept, a replica, on a server's disk and as a restart finds it, has applied each entry under its version that its server ever acknowledged, or that version is over.
pub fn acknowledged_entries_are_applied()
    ensures { AcknowledgedEntriesAreApplied }
{}

/// Where clocks and disks are kept, a server that holds a lease of a chunk has a replica of just that version, which has applied each entry of the lease's round, or the version is over.
pub fn primaries_have_their_round()
    ensures { PrimariesHaveTheirRound }
{}

/// Where clocks and disks are kept, as an entry becomes settled, each replica of its version, on a server's disk and as a restart finds it, has applied it.
pub fn settled_entries_are_at_all_members()
    ensures { SettledEntriesAreAtAllMembers }
{}

/// At a master that is up a chunk of which nothing was granted, and which is no copy under way, has no entry.
pub fn ungranted_chunks_have_no_entry()
    ensures { UngrantedChunksHaveNoEntry }
{}

/// Where clocks are kept, no entry of a chunk lies between the two versions of a SetVersion or a CopyLocal that gives it the later one, and none below that of a Create.
pub fn orders_skip_no_entry()
    ensures { OrdersSkipNoEntry }
{}

/// While its server would still take an order that gives a version, the chunk has no entry of that version.
pub fn untaken_versions_have_no_entry()
    ensures { UntakenVersionsHaveNoEntry }
{}

/// Where clocks are kept, the order of a copy is its source's up to the version that a CopyLocal copies, also in what is settled, from the moment the order is sent.
pub fn copies_have_their_sources_order()
    ensures { CopiesHaveTheirSourcesOrder }
{}

/// Where clocks and disks are kept, each replica, on a server's disk and as a restart finds it, has applied each settled entry of its chunk's order of a round up to its version.
pub fn replicas_have_settled_entries()
    ensures { ReplicasHaveSettledEntries }
{}

/// So has each Image that was sent.
pub fn images_have_settled_entries()
    ensures { ImagesHaveSettledEntries }
{}

/// So each replica is the image of a selection of its chunk's order up to its version.
pub fn replicas_are_selections()
    ensures { ReplicasAreSelections }
{}

/// Where clocks and disks are kept, a record or a pad that a server numbers begins past each settled entry of the chunk.
pub fn records_come_behind_settled_entries()
    ensures { RecordsComeBehindSettledEntries }
{}
