//! Laws of what the rows of the master say beside its orders and Grants, in every lawful list of events from a new cell: restarts, stops in a step, losses, repeats, refused memory and rot.

ghost use Rattle.laws_versions.specs.MasterRows.{RowsAreOfUsedHandles, OrdersAreOfUsedHandles, GrantsAgreeWithRows, AttemptsAreOfTheLastVersion, AttemptedLeasesHaveEnded, CopiedLeasesHaveEnded, OrderNumbersWereUsed, GrantsGoToMembers, HeldLeasesHaveUsedGrants};

/// The handle of each row was used, in the log and at a master that is up.
pub fn rows_are_of_used_handles()
    ensures { RowsAreOfUsedHandles }
{}

/// So was that of each chunk of which an order gives a version, or of which one is ordered to be cloned, asked for or sent as an image.
pub fn orders_are_of_used_handles()
    ensures { OrdersAreOfUsedHandles }
{}

/// No Grant is of a version above the granted one of its chunk's row, and the one of the granted version went to the row's primary.
pub fn grants_agree_with_rows()
    ensures { GrantsAgreeWithRows }
{}

/// At a master that is up the version of an attempt is the last one that was issued of its chunk, whose handle was used.
pub fn attempts_are_of_the_last_version()
    ensures { AttemptsAreOfTheLastVersion }
{}

/// At a master that is up the last lease has ended of each chunk of which a version is attempted, and of each copy under way.
pub fn attempted_leases_have_ended()
    ensures { AttemptedLeasesHaveEnded }
{}

/// Where clocks are kept, so has that of each chunk of which a copy is under way.
pub fn copied_leases_have_ended()
    ensures { CopiedLeasesHaveEnded }
{}

/// The number of each order was used: it is of an epoch that has begun, and at a master that is up at most that of its last order.
pub fn order_numbers_were_used()
    ensures { OrderNumbersWereUsed }
{}

/// Each Grant goes to one of its members.
pub fn grants_go_to_members()
    ensures { GrantsGoToMembers }
{}

/// The Grant of each lease that a server holds went to this server, which refuses it in all that follows.
pub fn held_leases_have_used_grants()
    ensures { HeldLeasesHaveUsedGrants }
{}
