//! How many locks each name has, so that a look at a name needs no look at the sets that are taken.

ghost use Rattle.std.specs.Prelude.{◌≡◌, ◌∷◌, [], suc, OnOk, OnErr, IfOk};
ghost use Rattle.std.specs.List.{list_any};
ghost use Rattle.name_locks.specs.LockCounts.{AddsAll, AreSame, TakesAll, count_of, is_blocked, one_less, one_more};

use crate::lock_set::Mode;
use gfs_types::no_memory::NoMemory;
use gfs_types::path::Path;
use std::alloc::Global;
use std::collections::BTreeMap;

/// How many locks a name has.
#[derive(Clone, Copy)]
pub(crate) struct LockCount {
    read: u64,
    write: u64,
}

/// The names that have a lock, each with how many.
pub(crate) type LockCounts = BTreeMap<Path, LockCount>;

/// Whether one of these names has a lock that conflicts.
pub(crate) fn are_blocked(counts: &LockCounts, names: &[(Path, Mode)]) -> bool
    ensures { result ≡ list_any (λ lock. is_blocked counts.now lock) names.now }
{
    names.iter().any(|lock| is_blocked(counts, lock))
}

// Whether a name has a lock that conflicts with this one.
fn is_blocked(counts: &LockCounts, wanted: &(Path, Mode)) -> bool
    ensures { result ≡ is_blocked counts.now wanted.now }
{
    let count = count_of(counts, &wanted.0);
    count.write > 0 || (wanted.1 == Mode::Write && count.read > 0)
}

/// Each of these locks counts. NoMemory: none does.
#[tactic(auto, using(crate::proofs::Changed::adds_none, crate::proofs::Changed::adds_next, crate::proofs::Changed::adds_whole, crate::proofs::Changed::back_again))]
pub(crate) fn add_all(
    alloc: Global,
    counts: &mut LockCounts,
    locks: &[(Path, Mode)],
) -> Result<(), NoMemory>
    ensures ok { OnOk result (AddsAll counts.old counts.new locks.now) }
    ensures err { OnErr result (AreSame counts.old counts.new) }
{
    let mut added = 0;
    for lock in locks {
        if add_one(alloc, counts, lock).is_err() {
            take_all(counts, &locks[..added]);
            return Err(NoMemory);
        }
        added += 1;
    }
    Ok(())
}

#[tactic(auto, using(crate::proofs::Changed::counts_more, crate::proofs::Changed::counts_written))]
fn add_one(alloc: Global, counts: &mut LockCounts, lock: &(Path, Mode)) -> Result<(), NoMemory>
    ensures ok { OnOk result (AddsAll counts.old counts.new (lock.now ∷ [])) }
    ensures err { OnErr result (AreSame counts.old counts.new) }
{
    let more = one_more(count_of(counts, &lock.0), lock.1)?;
    if let Some(count) = counts.get_mut(&lock.0) {
        *count = more;
        return Ok(());
    }
    counts.insert(lock.0.copy(alloc)?, more)?;
    Ok(())
}

/// None of these locks counts any more. It needs no memory.
#[tactic(auto, using(crate::proofs::Changed::takes_none, crate::proofs::Changed::takes_next, crate::proofs::Changed::takes_whole))]
pub(crate) fn take_all(counts: &mut LockCounts, locks: &[(Path, Mode)])
    ensures { TakesAll counts.old counts.new locks.now }
{
    for lock in locks {
        take_one(counts, lock);
    }
}

// A name that has no locks left goes.
#[tactic(auto, using(crate::proofs::Changed::counts_cleared, crate::proofs::Changed::counts_gone, crate::proofs::Changed::counts_none))]
fn take_one(counts: &mut LockCounts, lock: &(Path, Mode))
    ensures { TakesAll counts.old counts.new (lock.now ∷ []) }
{
    let left = one_less(count_of(counts, &lock.0), lock.1);
    if left.read == 0 && left.write == 0 {
        counts.remove(&lock.0);
        return;
    }
    if let Some(count) = counts.get_mut(&lock.0) {
        *count = left;
    }
}

fn count_of(counts: &LockCounts, name: &Path) -> LockCount
    ensures { result ≡ count_of counts.now name.now }
{
    match counts.get(name) {
        Some(count) => *count,
        None => LockCount { read: 0, write: 0 },
    }
}

// NoMemory: there are as many as a number can say.
fn one_more(count: LockCount, mode: Mode) -> Result<LockCount, NoMemory>
    ensures { IfOk result (λ more. more ≡ one_more mode count) }
{
    let mut more = count;
    match mode {
        Mode::Read => more.read = next(count.read)?,
        Mode::Write => more.write = next(count.write)?,
    }
    Ok(more)
}

fn next(count: u64) -> Result<u64, NoMemory>
    ensures { IfOk result (λ next. next ≡ suc count) }
{
    match count.checked_add(1) {
        Some(next) => Ok(next),
        None => Err(NoMemory),
    }
}

fn one_less(count: LockCount, mode: Mode) -> LockCount
    ensures { result ≡ one_less mode count }
{
    let mut less = count;
    match mode {
        Mode::Read => less.read = count.read.saturating_sub(1),
        Mode::Write => less.write = count.write.saturating_sub(1),
    }
    less
}
