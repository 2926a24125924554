//! Laws of the versions that servers copy from each other, in every lawful list of events from a new cell: restarts, stops in a step, losses, repeats, refused memory and rot.

ghost use Rattle.laws_versions.specs.ClonedVersions.{AttemptedVersionsAreNotCopied, AttemptedVersionsStandAtTheirServers, ClonesAreOfClosedVersions, CopiesAreOfClosedVersions, GrantedVersionsStandAtMembers, OrderedVersionsWereIssued, ReplicasAreOfIssuedVersions, SaidVersionsWereIssued};

/// Where clocks are kept, each Clone, CopyAsk and Image that was sent names a version that was issued, is not attempted, and whose lease is over, from the moment it is sent.
pub fn clones_are_of_closed_versions()
    ensures { ClonesAreOfClosedVersions }
{}

/// Where clocks are kept, the version that a CopyLocal which was sent copies under a new handle was issued, is not attempted, and its lease is over, from the moment the order is sent.
pub fn copies_are_of_closed_versions()
    ensures { CopiesAreOfClosedVersions }
{}

/// No order gives a server a version, and no Clone, CopyAsk or Image names one, above what a master that is up issued of its chunk.
pub fn ordered_versions_were_issued()
    ensures { OrderedVersionsWereIssued }
{}

/// No replica on a server's disk, also of one that is down, is of a version above what a master that is up issued of its chunk.
pub fn replicas_are_of_issued_versions()
    ensures { ReplicasAreOfIssuedVersions }
{}

/// No server says that it has a version above what a master that is up issued of its chunk.
pub fn said_versions_were_issued()
    ensures { SaidVersionsWereIssued }
{}

/// No Clone, CopyAsk or Image that was sent names a version that is attempted at a master that is up.
pub fn attempted_versions_are_not_copied()
    ensures { AttemptedVersionsAreNotCopied }
{}

/// A replica of a version that is attempted at a master that is up stands at a server of the attempt.
pub fn attempted_versions_stand_at_their_servers()
    ensures { AttemptedVersionsStandAtTheirServers }
{}

/// Where clocks are kept, a replica of a version that was granted stands at a member of its Grant, or was cloned, and then the version's lease is over.
pub fn granted_versions_stand_at_members()
    ensures { GrantedVersionsStandAtMembers }
{}
