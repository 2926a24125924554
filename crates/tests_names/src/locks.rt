//! Locks: creations in a directory, where memory is refused once.

ghost use Rattle.std.specs.Prelude.{◌≡◌, ◌∷◌, [], Some, IsTrue, IfOk, IsErrOf, OnErr};
ghost use Rattle.name_locks.specs.Locks.{has_conflict, held_by};
ghost use Rattle.name_locks.specs.declared.lock_set.Mode.TheVariants.{Read, Write};
ghost use Rattle.name_locks.specs.declared.table.TakeFault.TheVariants.{Conflict};

use gfs_types::path::{Path, PathFault};
use name_locks::lock_set::Mode;
use name_locks::table::{LockTable, TakeFault, Ticket};
use std::alloc::Global;
use std::test::Fail;

// The caller of CALLING.md.
/// Locks what a creation needs: the directory to be read, and the file's name to be written.
fn lock_for_creation(
    alloc: Global,
    table: &mut LockTable,
    directory: &Path,
    file: &Path,
) -> Result<Ticket, TakeFault>
    ensures taken { IfOk result (λ ticket. held_by table.new ticket ≡ Some ((directory.now, Read) ∷ (file.now, Write) ∷ [])) }
    ensures conflict { IsErrOf result Conflict → IsTrue (has_conflict table.old ((directory.now, Read) ∷ (file.now, Write) ∷ [])) }
    ensures err { OnErr result (table.new ≡ table.old) }
{
    let names = [
        (directory.copy(alloc)?, Mode::Read),
        (file.copy(alloc)?, Mode::Write),
    ];
    table.try_take(&names)
}

// Why a creation isn't locked. What owns a ticket or a table calls `drop` once: a drop at the end of a scope is proved anew at each place.
fn fault_of(
    alloc: Global,
    table: &mut LockTable,
    directory: &Path,
    file: &Path,
) -> Option<TakeFault> {
    let taken = lock_for_creation(alloc, table, directory, file);
    let fault = match &taken {
        Ok(_) => None,
        Err(fault) => Some(*fault),
    };
    drop(taken);
    fault
}

// The same, tried again where memory is refused once: had the first set been taken, the second would conflict.
fn fault_again(
    alloc: Global,
    table: &mut LockTable,
    directory: &Path,
    file: &Path,
) -> Option<TakeFault> {
    match fault_of(alloc, table, directory, file) {
        Some(TakeFault::NoMemory) => fault_of(alloc, table, directory, file),
        fault => fault,
    }
}

// A path, tried again where memory is refused once.
fn path_again(alloc: Global, text: &str) -> Result<Path, PathFault> {
    match Path::parse(alloc, text) {
        Ok(path) => Ok(path),
        Err(_) => Path::parse(alloc, text),
    }
}

// Two creations in a directory, and the first of them once more. It passes too where one allocation is refused, whichever that is (`tools/campaigns/refused`): a refused
// call has taken nothing, and goes through when it is made again.
#[test]
fn a_refused_set_is_not_taken(rt: HostRuntime) -> Result<(), Fail> {
    let alloc = rt.alloc();
    let directory = path_again(alloc, "/d")?;
    let a = path_again(alloc, "/d/a")?;
    let b = path_again(alloc, "/d/b")?;
    let mut table = LockTable::new(alloc);
    let first = fault_again(alloc, &mut table, &directory, &a);
    let second = fault_again(alloc, &mut table, &directory, &b);
    let again = fault_again(alloc, &mut table, &directory, &a);
    drop(table);
    assert!(rt; first.is_none());
    assert!(rt; second.is_none());
    assert!(rt; again == Some(TakeFault::Conflict));
    Ok(())
}
