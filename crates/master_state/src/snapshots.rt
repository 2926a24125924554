//! What a snapshot is about, and how it is taken (section 3.4).

ghost use Rattle.std.specs.Prelude.{◌≡◌, ◌<◌, ◌⊎◌, IfOk, OnOk, IsErrOf, IsTrue, IsFalse};
ghost use Rattle.relaxed_file.specs.Names.{copied_entries};
ghost use Rattle.leases.specs.LeaseEnds.{last_moment};
ghost use Rattle.snapshot.specs.Copies.{are_all_closed, are_paths, may_share_all};
ghost use Rattle.protocol.specs.Logged.{snapshot_logged};
ghost use Rattle.master_state.specs.Copied.{files_copied, handles_copied};
ghost use Rattle.master_state.specs.Follows.{table_of};
ghost use Rattle.master_state.specs.declared.fault.ReplayFault.TheVariants.{Damaged};

use crate::fault::ReplayFault;
use crate::state::State;
use gfs_types::ids::Moment;
use gfs_types::path::{Path, PathFault};
use snapshot::commit::commit;
use snapshot::fault::SnapshotFault;
use snapshot::plan::{SnapshotPlan, plan};
use std::alloc::Allocator;

impl<A: Allocator + Clone> State<A> {
    /// What a snapshot of `from` at `to` is about. Damaged: the name of a copy would be no path.
    #[tactic(auto, using(crate::proofs::SharedFiles::same_files, crate::proofs::SharedFiles::same_chunks))]
    pub fn plan_snapshot(&self, from: &Path, to: &Path) -> Result<SnapshotPlan, ReplayFault>
        ensures copies { IfOk result (λ p. p.copies ≡ copied_entries self.now.names from.now to.now) }
        ensures files { IfOk result (λ p. p.files ≡ files_copied self.now from.now to.now) }
        ensures chunks { IfOk result (λ p. p.chunks ≡ handles_copied self.now from.now to.now) }
        ensures paths { OnOk result (IsTrue (are_paths (copied_entries self.now.names from.now to.now))) }
        ensures damaged { IsErrOf result Damaged → IsFalse (are_paths (copied_entries self.now.names from.now to.now)) }
    {
        match plan(self.alloc, &self.names, &self.table, from, to) {
            Ok(found) => Ok(found),
            Err(PathFault::BadPath) => Err(ReplayFault::Damaged),
            Err(PathFault::NoMemory) => Err(ReplayFault::NoMemory),
        }
    }

    /// A snapshot is taken: its names are put, and its files' chunks are shared. Damaged: the lease of one of these has not ended, a
    /// file isn't there, or a counter is at its limit. No lease is held at the last moment.
    #[tactic(auto, using(crate::proofs::SharedFiles::shared_is))]
    pub fn commit_snapshot(&mut self, plan: &SnapshotPlan, now: Moment) -> Result<(), ReplayFault>
        ensures ok { OnOk result (self.new ≡ snapshot_logged self.old plan.now.copies) }
        ensures closed { OnOk result (IsTrue (are_all_closed self.old.table now.0 plan.now.copies)) }
        ensures allowed { OnOk result (IsTrue (may_share_all (table_of self.old) plan.now.copies)) }
        ensures damaged { IsErrOf result Damaged → IsFalse (may_share_all (table_of self.old) plan.now.copies) ⊎ (now.0 < last_moment) }
    {
        match commit(plan, &mut self.names, &mut self.table, now) {
            Ok(()) => Ok(()),
            Err(SnapshotFault::Leased) => Err(ReplayFault::Damaged),
            Err(SnapshotFault::Refused) => Err(ReplayFault::Damaged),
            Err(SnapshotFault::NoMemory) => Err(ReplayFault::NoMemory),
        }
    }
}
