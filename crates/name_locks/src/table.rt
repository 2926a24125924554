//! Which names are locked, and under which ticket.

ghost use Rattle.std.specs.Prelude.{◌≡◌, ◌↔◌, Some, None, [], true, IsSome, IsTrue, IfOk, IsErrOf, OnErr};
ghost use Rattle.name_locks.specs.Faults.{fault_text};
ghost use Rattle.name_locks.specs.Locks.{Changes, has_conflict, held_by};
ghost use Rattle.name_locks.specs.declared.table.TakeFault.TheVariants.{Conflict, NoMemory as OutOfMemory};

use crate::lock_counts::{LockCounts, add_all, are_blocked, take_all};
use crate::lock_set::{LockSet, Mode};
use gfs_types::no_memory::NoMemory;
use gfs_types::path::Path;
use slab::Slab;
use std::alloc::Global;
use std::collections::BTreeMap;
use std::error::Error;
use std::fmt;
use std::marker::Model;

/// Why a set of names isn't locked.
#[derive(Clone, Copy, Debug, PartialEq, Eq)]
pub enum TakeFault {
    /// A taken set has one of the names, and at least one of the two wants to write it.
    Conflict,
    /// An allocator refused the room that the set needs.
    NoMemory,
}

impl fmt::Display for TakeFault {
    ghost output = { λ fault. Some (fault_text fault) };

    fn fmt<W: fmt::Write>(&self, f: &mut fmt::Formatter<W>) -> fmt::Result {
        match self {
            TakeFault::Conflict => write!(f, "conflict"),
            TakeFault::NoMemory => write!(f, "no memory"),
        }
    }
}

impl Error for TakeFault {}

impl From<NoMemory> for TakeFault {
    ghost from_gives = { λ _ e. e ≡ OutOfMemory };

    fn from(_error: NoMemory) -> TakeFault {
        TakeFault::NoMemory
    }
}

/// The leave to use a set of names until it is given back. It can't be copied, and is seen as its number. One that isn't given back keeps its names taken.
#[derive(Debug, Drop)]
pub struct Ticket {
    key: usize,
}

impl Model for Ticket {
    ghost use Rattle.std.specs.Prelude.{ℕ};

    ghost Value = { ℕ };

    ghost view = { λ t. t.key };
}

/// Locked names, seen as the list of what each ticket holds.
#[derive(Drop)]
pub struct LockTable {
    taken: Slab<LockSet, Global>,
    // the locks of all taken sets, by their names
    counts: LockCounts,
    alloc: Global,
}

impl Model for LockTable {
    ghost use Rattle.name_locks.specs.Locks.{Table};
    ghost use Rattle.name_locks.specs.LockCounts.{AreCounted};

    ghost Value = { Table };

    ghost view = { λ t. t.taken.slots };

    ghost invariant = { λ t. AreCounted t.taken.slots t.counts };
}

impl LockTable {
    /// A table in which nothing is taken. Its copies of names lie in `alloc`.
    pub fn new(alloc: Global) -> LockTable
        ensures { result ≡ [] }
    {
        LockTable {
            taken: Slab::new(alloc),
            counts: BTreeMap::new(alloc),
            alloc,
        }
    }

    /// Whether a taken set has one of these names, where at least one of the two wants to write it. It needs no memory.
    pub fn conflicts(&self, names: &[(Path, Mode)]) -> bool
        ensures { result ≡ has_conflict self.now names.now }
    {
        are_blocked(&self.counts, names)
    }

    /// Takes these names under a new ticket. A set doesn't conflict with itself. A refusal leaves the table as it was; Conflict is looked for first.
    pub fn try_take(&mut self, names: &[(Path, Mode)]) -> Result<Ticket, TakeFault>
        ensures vacant { IfOk result (λ ticket. held_by self.old ticket ≡ None) }
        ensures taken { IfOk result (λ ticket. Changes self.old self.new ticket (Some names.now)) }
        ensures conflict { IsErrOf result Conflict ↔ IsTrue (has_conflict self.old names.now) }
        ensures err { OnErr result (self.new ≡ self.old) }
    {
        if self.conflicts(names) {
            return Err(TakeFault::Conflict);
        }
        let locks = LockSet::copy_of(self.alloc, names)?;
        Ok(self.add(locks)?)
    }

    #[tactic(auto, using(crate::proofs::Counts::put_counts))]
    fn add(&mut self, locks: LockSet) -> Result<Ticket, NoMemory>
        ensures vacant { IfOk result (λ ticket. held_by self.old ticket ≡ None) }
        ensures taken { IfOk result (λ ticket. Changes self.old self.new ticket (Some locks)) }
        ensures err { OnErr result (self.new ≡ self.old) }
    {
        self.taken.reserve(1)?;
        add_all(self.alloc, &mut self.counts, locks.as_slice())?;
        let key = self.taken.insert_reserved(locks);
        Ok(Ticket { key })
    }

    /// Gives the names of a ticket back, which is an open one of this table. It needs no memory.
    #[tactic(auto, using(crate::proofs::Counts::gone_counts))]
    pub fn give(&mut self, ticket: Ticket)
        requires { IsSome (held_by self.old ticket) }
        ensures { Changes self.old self.new ticket None }
    {
        let Ticket { key } = ticket;
        if let Some(locks) = self.taken.try_remove(key) {
            take_all(&mut self.counts, locks.as_slice());
        }
    }
}
