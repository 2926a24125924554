//! The snapshots that wait, and what is kept beside them, so that few calls look at each (section 3.4).

ghost use Rattle.std.specs.Prelude.{◌≡◌, ◌==◌, ◌&&◌, ◌++◌, ◌∷◌, [], false, true, not, length, filter, IfOk, OnOk, OnErr};
ghost use Rattle.std.specs.List.{list_all, list_any};
ghost use Rattle.gfs_types.specs.Paths.{is_path};
ghost use Rattle.name_locks.specs.Locks.{sets_clash};
ghost use Rattle.protocol.specs.MasterSnapshots.{live_snapshots};
ghost use Rattle.master_waiting.specs.CallLocks.{has_paths, locks_of_snapshot, locks_on};
ghost use Rattle.master_waiting.specs.Concerned.{is_source, is_by_trash};

use crate::call_locks::path_locks;
use crate::fault::PlanFault;
use crate::locked_list::LockedSnapshots;
use crate::waiting::{Awaited, Pending};
use crate::waiting_concerned::{are_by_trash, is_source};
use crate::waiting_snapshots::earliest_of;
use gfs_types::ids::ClientId;
use gfs_types::no_memory::NoMemory;
use gfs_types::path::{Path, PathFault};
use name_locks::lock_set::Mode;
use ordered_map::OrderedMap;
use std::alloc::Global;
use std::marker::Model;

// Up to so many snapshots a look at each takes less than one at their locks.
const FEW: usize = 8;

/// The snapshots that wait, the oldest first, each under its locks.
#[derive(Drop)]
pub struct WaitingSnapshots {
    alloc: Global,
    snapshots: LockedSnapshots,
    // no deadline is earlier
    earliest: u64,
    // the clients that asked, and perhaps some whose snapshots were given up
    clients: OrderedMap<()>,
}

impl Model for WaitingSnapshots {
    ghost use Rattle.std.specs.Prelude.{◌≡◌, true, List};
    ghost use Rattle.protocol.specs.Master.{PendingSnapshot};
    ghost use Rattle.master_waiting.specs.Due.{are_due_from, are_from};

    ghost Value = { List PendingSnapshot };

    ghost view = { λ w. w.snapshots };

    ghost invariant = { λ w. (are_due_from w.earliest w.snapshots ≡ true) × (are_from w.clients w.snapshots ≡ true) };
}

impl WaitingSnapshots {
    /// None waits. Takes no memory.
    pub fn new(alloc: Global) -> WaitingSnapshots
        ensures { result ≡ [] }
    {
        WaitingSnapshots {
            alloc,
            snapshots: LockedSnapshots::new(alloc),
            earliest: u64::MAX,
            clients: OrderedMap::new(alloc),
        }
    }

    /// The snapshots.
    pub fn as_slice(&self) -> &[Pending]
        ensures value { result.now ≡ self.now }
    {
        self.snapshots.as_slice()
    }

    /// Whether none waits.
    pub fn is_empty(&self) -> bool
        ensures { result ≡ (length self.now == 0) }
    {
        self.snapshots.is_empty()
    }

    /// Their names are paths.
    pub fn have_paths(&self)
        ensures { list_all has_paths self.now ≡ true }
    {
        self.snapshots.have_paths();
    }

    /// Whether a snapshot holds a lock that conflicts with one of these. Takes no memory.
    pub fn conflicts(&self, locks: &[(Path, Mode)]) -> bool
        ensures answer { result ≡ list_any (λ s. sets_clash (locks_of_snapshot s) locks.now) self.now }
        ensures paths { list_all has_paths self.now ≡ true }
    {
        self.snapshots.conflicts(locks)
    }

    /// One more waits, behind the others, under its locks, with which no lock of another one conflicts.
    #[tactic(auto, using(crate::proofs::Bounds::due_pushed, crate::proofs::Bounds::due_left, crate::proofs::Bounds::from_pushed, crate::proofs::Bounds::from_left))]
    pub fn push(&mut self, snapshot: Pending) -> Result<(), PlanFault>
        requires { list_any (λ s. sets_clash (locks_of_snapshot s) (locks_of_snapshot snapshot)) self.old ≡ false }
        ensures ok { OnOk result (self.new ≡ self.old ++ snapshot ∷ []) }
        ensures err { OnErr result (self.new ≡ self.old) }
    {
        self.clients.insert(snapshot.client().0, ())?;
        self.earliest = self.earliest.min(snapshot.deadline().0);
        self.snapshots.push(snapshot)?;
        Ok(())
    }

    /// Those whose deadline has come wait no more, and give their locks back. Looks at none before the earliest one. Takes no memory.
    pub fn keep_live(&mut self, now: u64)
        ensures { self.new ≡ live_snapshots now self.old }
    {
        if self.all_live(now) {
            return;
        }
        self.snapshots.keep_live(now);
        self.earliest = earliest_of(self.snapshots.as_slice());
    }

    // Whether it is known that no deadline has come.
    fn all_live(&self, now: u64) -> bool
        ensures { result ≡ true → self.now ≡ live_snapshots now self.now }
    {
        now < self.earliest
    }

    /// That of a client's call of this number waits no more, and gives its locks back. Takes no memory.
    #[tactic(auto, using(crate::proofs::Bounds::due_kept, crate::proofs::Bounds::from_kept, crate::proofs::Bounds::from_without))]
    pub fn remove_call(&mut self, client: ClientId, number: u64)
        ensures { self.new ≡ filter (λ other. not ((client.0 == other.client) && (number == other.number))) self.old }
    {
        self.snapshots.remove_call(client, number);
        if self.snapshots.has_of(client) {
            return;
        }
        self.clients.remove(client.0);
    }

    /// Whether that of a client's call of this number waits. Takes no memory.
    pub fn has_call(&self, client: ClientId, number: u64) -> bool
        ensures { result ≡ list_any (λ s. (s.client == client.0) && (s.number == number)) self.now }
    {
        if self.is_stranger(client) {
            return false;
        }
        self.snapshots.has_call(client, number)
    }

    // Whether it is known that a client has none.
    fn is_stranger(&self, client: ClientId) -> bool
        ensures { result ≡ true → list_any (λ s. s.client == client.0) self.now ≡ false }
    {
        self.clients.get(client.0).is_none()
    }

    /// Whether a text is a source, or a path below one.
    #[tactic(auto, using(crate::proofs::Sources::not_source))]
    pub fn is_source(&self, text: &str) -> Result<bool, NoMemory>
        ensures { IfOk result (λ b. b ≡ is_source self.now text.now) }
    {
        if self.as_slice().len() <= FEW {
            return Ok(is_source(self.as_slice(), text));
        }
        match Path::parse(self.alloc, text) {
            Ok(path) => {
                if !self.are_locked(&path, Mode::Read)? {
                    return Ok(false);
                }
                Ok(is_source(self.as_slice(), text))
            }
            Err(PathFault::BadPath) => Ok(is_source(self.as_slice(), text)),
            Err(PathFault::NoMemory) => Err(NoMemory),
        }
    }

    /// Whether the hidden name of a deleted file may lie at a source or below it.
    #[tactic(auto, using(crate::proofs::Sources::none_there))]
    pub fn are_by_trash(&self) -> Result<bool, NoMemory>
        ensures { IfOk result (λ b. b ≡ list_any (λ s. is_by_trash s.from) self.now) }
    {
        if self.is_empty() {
            return Ok(false);
        }
        let Ok(trash) = Path::parse(self.alloc, "/.gone") else {
            return Err(NoMemory);
        };
        if !self.are_locked(&trash, Mode::Write)? {
            return Ok(false);
        }
        Ok(are_by_trash(self.as_slice()))
    }

    // Whether a snapshot holds a lock that conflicts with one on this path, or on a directory above it.
    fn are_locked(&self, path: &Path, mode: Mode) -> Result<bool, NoMemory>
        ensures answer { IfOk result (λ b. b ≡ list_any (λ s. sets_clash (locks_of_snapshot s) (locks_on mode path.now)) self.now) }
        ensures paths { list_all has_paths self.now ≡ true }
        ensures path { OnOk result (is_path path.now ≡ true) }
    {
        self.have_paths();
        let locks = path_locks(self.alloc, path, mode)?;
        Ok(self.conflicts(&locks))
    }

    /// Where a chunk was found that the snapshot of a client's call of this number waits for. Takes no memory.
    pub fn note(&mut self, client: ClientId, number: u64, awaited: Awaited)
        ensures { self.new ≡ self.old }
    {
        self.snapshots.note(client, number, awaited);
    }

    /// A copy of the list.
    pub fn copies(&self, alloc: Global) -> Result<Vec<Pending>, NoMemory>
        ensures { IfOk result (λ v. v.items ≡ self.now) }
    {
        self.snapshots.copies(alloc)
    }
}
