//! The snapshots that wait, as they come and go (section 3.4).

ghost use Rattle.std.specs.Prelude.{◌≡◌, ◌==◌, ◌&&◌, ◌++◌, ◌∷◌, [], false, true, not, filter, IfOk, OnOk};
ghost use Rattle.std.specs.List.{list_all, list_any};
ghost use Rattle.name_locks.specs.Locks.{sets_clash};
ghost use Rattle.protocol.specs.MasterNames.{is_busy, is_waiting_call, snapshot_call};
ghost use Rattle.protocol.specs.MasterSnapshots.{is_ready};
ghost use Rattle.master_waiting.specs.CallLocks.{has_paths, locks_of_snapshot};
ghost use Rattle.master_waiting.specs.Due.{WaitAt};
ghost use Rattle.master_plan.specs.Plans.{known};

use crate::plan::Plan;
use gfs_types::ids::ClientId;
use gfs_types::no_memory::NoMemory;
use gfs_types::path::Path;
use master_waiting::fault::PlanFault;
use master_waiting::waiting::{Awaited, Pending};
use name_locks::lock_set::Mode;
use ordered_map::OrderedMap;
use std::alloc::Allocator;

impl<A: Allocator + Clone> Plan<A> {
    /// A snapshot that no other makes busy waits from now on, behind the others, under its locks.
    #[tactic(auto, using(master_waiting::proofs::Clashes::none_clashes))]
    pub fn put_snapshot(&mut self, snapshot: Pending) -> Result<(), PlanFault>
        requires { is_busy (known self.old) (snapshot_call snapshot) ≡ false }
        ensures { OnOk result (self.new ≡ record self.old { snapshots = self.old.snapshots ++ snapshot ∷ [] }) }
    {
        self.knows_concerned = false;
        self.all_wait_until = None;
        self.snapshots.have_paths();
        snapshot.has_paths();
        self.snapshots.push(snapshot)
    }

    /// The snapshot of a client's call of this number waits no more, and its locks go back. Takes no memory.
    pub fn remove_snapshot(&mut self, client: ClientId, number: u64)
        ensures { self.new ≡ record self.old { snapshots = filter (λ other. not ((client.0 == other.client) && (number == other.number))) self.old.snapshots } }
    {
        self.knows_concerned = false;
        self.concerned_files = OrderedMap::new(self.alloc);
        self.concerned_chunks = OrderedMap::new(self.alloc);
        self.snapshots.remove_call(client, number);
    }

    /// Where a chunk was found that this snapshot waits for. Takes no memory.
    pub fn note_awaited(&mut self, client: ClientId, number: u64, awaited: Awaited)
        ensures { self.new ≡ self.old }
    {
        self.snapshots.note(client, number, awaited);
    }

    /// Whether a snapshot that waits holds a lock that conflicts with one of these. Takes no memory.
    pub fn conflicts(&self, locks: &[(Path, Mode)]) -> bool
        ensures answer { result ≡ list_any (λ s. sets_clash (locks_of_snapshot s) locks.now) self.now.snapshots }
        ensures paths { list_all has_paths self.now.snapshots ≡ true }
    {
        self.snapshots.conflicts(locks)
    }

    /// Whether that of a client's call of this number waits. Takes no memory.
    pub fn has_snapshot(&self, client: ClientId, number: u64) -> bool
        ensures { result ≡ is_waiting_call (known self.now) client.0 number }
    {
        self.snapshots.has_call(client, number)
    }

    /// Whether none can be ready now, as far as was found before. Takes no memory.
    pub fn all_wait(&self) -> bool
        ensures { result ≡ true → list_all (λ s. not (is_ready (known self.now) s)) self.now.snapshots ≡ true }
    {
        match self.all_wait_until {
            Some(until) => self.clock <= until,
            None => self.snapshots.is_empty(),
        }
    }

    /// It was found that at this moment none is ready. That is known until then, unless a change may make one ready.
    pub fn note_all_wait(&mut self, moment: u64)
        requires { WaitAt self.old.logged self.old.snapshots moment }
        ensures { self.new ≡ self.old }
    {
        self.all_wait_until = Some(moment);
    }

    /// A copy of the list of them.
    pub fn copied_snapshots(&self) -> Result<Vec<Pending>, NoMemory>
        ensures { IfOk result (λ v. v.items ≡ self.now.snapshots) }
    {
        self.snapshots.copies(self.alloc)
    }
}
