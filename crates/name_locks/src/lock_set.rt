//! Names, each to be read or written.

ghost use Rattle.std.specs.Prelude.{◌≡◌, IfOk};

use gfs_types::no_memory::NoMemory;
use gfs_types::path::Path;
use std::alloc::Global;
use std::marker::Model;

/// How a name is locked.
#[derive(Clone, Copy, Debug, PartialEq, Eq)]
pub enum Mode {
    /// Others may read it too.
    Read,
    /// Nobody else may read or write it.
    Write,
}

// The locks that a ticket holds, seen as their list.
#[derive(Drop)]
pub(crate) struct LockSet {
    locks: Vec<(Path, Mode)>,
}

impl Model for LockSet {
    ghost use Rattle.std.specs.Prelude.{List, ℕ};
    ghost use Rattle.name_locks.specs.declared.lock_set.Mode.{Mode};

    ghost Value = { List (List ℕ × Mode) };

    ghost view = { λ s. s.locks.items };
}

impl LockSet {
    pub(crate) fn copy_of(alloc: Global, locks: &[(Path, Mode)]) -> Result<LockSet, NoMemory>
        ensures { IfOk result (λ s. s ≡ locks.now) }
    {
        let mut copies = Vec::new(alloc);
        for lock in locks {
            copies.push((lock.0.copy(alloc)?, lock.1))?;
        }
        Ok(LockSet { locks: copies })
    }

    pub(crate) fn as_slice(&self) -> &[(Path, Mode)]
        ensures { result.now ≡ self.now }
    {
        self.locks.as_slice()
    }
}
