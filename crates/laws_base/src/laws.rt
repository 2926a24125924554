//! Laws of every lawful list of events from a new cell: calls, deliveries, losses, repeats, ticks, restarts, stops in a step, refused memory and rot.

ghost use Rattle.laws_base.specs.Laws.{ChunksHaveTheirFilesShapes, CountingLeasesHaveNotEnded, FilesHaveOneName, GrantedIsAtMostIssued, LastingLeasesAreInTheLog, LastingLeasesAreOfTheMaster, LeasesAreTold, LogHasTheChunks, LogHasTheFiles, LogHasTheNames, LogHasTheShapes, MasterNamesAreATree, MembersRecordedWhatIsGranted, OneLeaseLasts, OrderNumbersNeverFall, OrdersAreNumberedOnce, ReferencesAreCounted, RestartsOfWhatIsLeft, VersionsAreGrantedOnce, VersionsHaveOnePrimary};

/// No two orders of the master have one number, over its restarts and stops too.
pub fn orders_are_numbered_once()
    ensures { OrdersAreNumberedOnce }
{}

/// The number of the last order that a server took never falls, over restarts and stops too.
pub fn order_numbers_never_fall()
    ensures { OrderNumbersNeverFall }
{}

/// The granted version of a chunk is at most the issued one, also after each restart of the master.
pub fn granted_is_at_most_issued()
    ensures { GrantedIsAtMostIssued }
{}

/// Before a version is granted, each member has told the master that it has it: it recorded it, or reported it.
pub fn members_recorded_what_is_granted()
    ensures { MembersRecordedWhatIsGranted }
{}

/// A version of a chunk is granted at most once, over restarts and stops of the master too: no two Grants of it are ever sent.
pub fn versions_are_granted_once()
    ensures { VersionsAreGrantedOnce }
{}

/// A lease that a server holds was granted to it, with its members and the size of the chunk, and ends as a Grant or an Extend of its version told.
pub fn leases_are_told()
    ensures { LeasesAreTold }
{}

/// The lease of a version of a chunk is held by one server at most.
pub fn versions_have_one_primary()
    ensures { VersionsHaveOnePrimary }
{}

/// Where clocks are kept, a lease that ends after the greatest moment is of the version that the row of a master that is up grants, if it has one for the chunk, its server is the row's primary, and the row's end is not earlier.
pub fn lasting_leases_are_of_the_master()
    ensures { LastingLeasesAreOfTheMaster }
{}

/// Where clocks are kept, the log, replayed, grants the version of a lease that ends after the greatest moment, to its server, where the chunk is there, also while the master is down.
pub fn lasting_leases_are_in_the_log()
    ensures { LastingLeasesAreInTheLog }
{}

/// Where clocks are kept, a lease that counts for its primary as it begins a step is of the version that the row of a master that is up grants, if it has one for the chunk, its server is the row's primary, and it has not ended at the master.
pub fn counting_leases_have_not_ended()
    ensures { CountingLeasesHaveNotEnded }
{}

/// Where clocks are kept, at most one server holds a lease of a chunk that ends after the greatest moment.
pub fn one_lease_lasts()
    ensures { OneLeaseLasts }
{}

/// The names of a master that is up are a tree, after each of its restarts too.
pub fn master_names_are_a_tree()
    ensures { MasterNamesAreATree }
{}

/// The log, replayed, has the names, counters, epoch and kept answers of a master that is up.
pub fn log_has_the_names()
    ensures { LogHasTheNames }
{}

/// The log, replayed, has the files of a master that is up, with their lists of chunks.
pub fn log_has_the_files()
    ensures { LogHasTheFiles }
{}

/// At a master that is up each file has just one name, and each name's file is there; and so in its log, replayed.
pub fn files_have_one_name()
    ensures { FilesHaveOneName }
{}

/// At a master that is up each chunk has as many references as its handle stands in files, and what stands in a file is a chunk; and so in its log, replayed.
pub fn references_are_counted()
    ensures { ReferencesAreCounted }
{}

/// The log, replayed, has the chunks of a master that is up, but for the ends of leases, for shapes and for copies under way, which a restart gives up.
pub fn log_has_the_chunks()
    ensures { LogHasTheChunks }
{}

/// At a master that is up each file has a shape, which each of its chunks has, and a copy under way has that of the file that it is for; and so in its log, replayed.
pub fn chunks_have_their_files_shapes()
    ensures { ChunksHaveTheirFilesShapes }
{}

/// The log, replayed, tells the shape of each file of a master that is up, as it is there; no chunk of a file has fewer than 64 bytes.
pub fn log_has_the_shapes()
    ensures { LogHasTheShapes }
{}

/// A restart of a master as its code has it, which may not have begun the change that a stop names, is a restart of the master of the definitions.
pub fn restarts_of_what_is_left()
    ensures { RestartsOfWhatIsLeft }
{}
