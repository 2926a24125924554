//! The locks that a call takes: each proper ancestor of its paths to be read, and the paths themselves to be read or written (section 4.1).

ghost use Rattle.std.specs.Prelude.{◌≡◌, ◌&&◌, ◌++◌, ◌∷◌, [], map, true, IfOk, OnOk, MatchOption, IsTrue, IsFalse};
ghost use Rattle.gfs_types.specs.Paths.{is_path};
ghost use Rattle.name_locks.specs.declared.lock_set.Mode.TheVariants.{Write};
ghost use Rattle.master_waiting.specs.CallLocks.{ancestors, locks_on, locks_of, snapshot_locks, reading, are_paths};

use gfs_types::call::Call;
use gfs_types::lists::Text;
use gfs_types::no_memory::NoMemory;
use gfs_types::path::{Path, PathFault};
use name_locks::lock_set::Mode;
use path_trie::parts::parent;
use std::alloc::Global;

/// Names, each to be read or written.
pub type Locks = Vec<(Path, Mode)>;

/// Adds the locks of one path.
pub fn lock(alloc: Global, locks: &mut Locks, path: &Path, mode: Mode) -> Result<(), NoMemory>
    ensures locks { OnOk result (locks.new.items ≡ locks.old.items ++ locks_on mode path.now) }
    ensures path { OnOk result (IsTrue (is_path path.now)) }
{
    locks.push((path.copy(alloc)?, mode))?;
    read_above(alloc, locks, path.as_str())
}

// Adds that each directory above a path is read.
#[tactic(auto, using(crate::proofs::CallLocks::one_up, crate::proofs::CallLocks::none_above, crate::proofs::CallLocks::no_more))]
fn read_above(alloc: Global, locks: &mut Locks, path: &str) -> Result<(), NoMemory>
    ensures { OnOk result (locks.new.items ≡ locks.old.items ++ map reading (ancestors path.now)) }
{
    let mut at = path;
    for depth in 0..path.len() {
        if at == "/" {
            return Ok(());
        }
        at = parent(at);
        read(alloc, locks, at)?;
    }
    Ok(())
}

fn read(alloc: Global, locks: &mut Locks, path: &str) -> Result<(), NoMemory>
    ensures { OnOk result (locks.new.items ≡ locks.old.items ++ reading path.now ∷ []) }
{
    match Path::parse(alloc, path) {
        Ok(path) => {
            locks.push((path, Mode::Read))?;
            Ok(())
        }
        Err(_) => Err(NoMemory),
    }
}

/// The locks of one path.
pub fn path_locks(alloc: Global, path: &Path, mode: Mode) -> Result<Locks, NoMemory>
    ensures locks { IfOk result (λ locks. locks.items ≡ locks_on mode path.now) }
    ensures path { OnOk result (IsTrue (is_path path.now)) }
{
    let mut locks = Vec::new(alloc);
    lock(alloc, &mut locks, path, mode)?;
    Ok(locks)
}

/// The locks of a snapshot that waits.
pub fn snapshot_locks(alloc: Global, from: &Path, to: &Path) -> Result<Locks, NoMemory>
    ensures locks { IfOk result (λ locks. locks.items ≡ snapshot_locks from.now to.now) }
    ensures paths { OnOk result (IsTrue (is_path from.now && is_path to.now)) }
{
    let mut locks = Vec::new(alloc);
    lock(alloc, &mut locks, from, Mode::Write)?;
    lock(alloc, &mut locks, to, Mode::Write)?;
    Ok(locks)
}

/// The locks of a call. None: one of its texts is no path.
pub fn call_locks(alloc: Global, call: &Call) -> Result<Option<Locks>, NoMemory>
    ensures { IfOk result (λ locks. MatchOption locks (IsFalse (are_paths call.now)) (λ all. IsTrue (are_paths call.now) × (all.items ≡ locks_of call.now))) }
{
    let mut locks = Vec::new(alloc);
    if lock_call(alloc, &mut locks, call)? {
        Ok(Some(locks))
    } else {
        Ok(None)
    }
}

// Adds the locks of a call. False: one of its texts is no path.
#[tactic(auto, using(crate::proofs::CallLocks::one_lock, crate::proofs::CallLocks::two_locks, crate::proofs::CallLocks::one_path, crate::proofs::CallLocks::two_paths))]
fn lock_call(alloc: Global, locks: &mut Locks, call: &Call) -> Result<bool, NoMemory>
    ensures paths { IfOk result (λ b. b ≡ are_paths call.now) }
    ensures locks { IfOk result (λ b. b ≡ true → locks.new.items ≡ locks.old.items ++ locks_of call.now) }
{
    match call {
        Call::Open(path) | Call::List(path) => lock_text(alloc, locks, path, Mode::Read),
        Call::Mkdir(path) | Call::Rmdir(path) | Call::Create(path, _) | Call::Delete(path) => {
            lock_text(alloc, locks, path, Mode::Write)
        }
        Call::Rename(from, to) | Call::Snapshot(from, to) => { lock_both(alloc, locks, from, to) }
        _ => Ok(true),
    }
}

// Adds that two texts which are paths are written. False: one is none.
fn lock_both(alloc: Global, locks: &mut Locks, from: &Text, to: &Text) -> Result<bool, NoMemory>
    ensures paths { IfOk result (λ b. b ≡ (is_path from.now && is_path to.now)) }
    ensures locks { IfOk result (λ b. b ≡ true → locks.new.items ≡ locks.old.items ++ (locks_on Write from.now ++ locks_on Write to.now)) }
{
    if !lock_text(alloc, locks, from, Mode::Write)? {
        return Ok(false);
    }
    lock_text(alloc, locks, to, Mode::Write)
}

// Adds the locks of a text that is a path. False: it is none.
fn lock_text(alloc: Global, locks: &mut Locks, text: &Text, mode: Mode) -> Result<bool, NoMemory>
    ensures path { IfOk result (λ b. b ≡ is_path text.now) }
    ensures locks { IfOk result (λ b. b ≡ true → locks.new.items ≡ locks.old.items ++ locks_on mode text.now) }
{
    match Path::parse(alloc, text.as_str()) {
        Ok(path) => {
            lock(alloc, locks, &path, mode)?;
            Ok(true)
        }
        Err(PathFault::BadPath) => Ok(false),
        Err(PathFault::NoMemory) => Err(NoMemory),
    }
}
