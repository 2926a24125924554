//! Snapshots, each under its locks (sections 3.4 and 4.1).

ghost use Rattle.std.specs.Prelude.{◌≡◌, ◌==◌, ◌&&◌, ◌++◌, ◌∷◌, [], ◌<◌, None, false, true, not, nat_lt, length, filter, IfOk, OnOk, OnErr, IsSome};
ghost use Rattle.std.specs.List.{list_all, list_any, position, remove};
ghost use Rattle.name_locks.specs.Locks.{Changes, has_conflict, held_by, sets_clash};
ghost use Rattle.protocol.specs.MasterSnapshots.{live_snapshots};
ghost use Rattle.master_waiting.specs.CallLocks.{AreKept, TakesOne, has_paths, locks_of_snapshot};

use crate::call_locks::snapshot_locks;
use crate::fault::PlanFault;
use crate::waiting::{Awaited, Pending};
use crate::waiting_snapshots::{copies_of, note_at_call};
use gfs_types::ids::ClientId;
use gfs_types::no_memory::NoMemory;
use gfs_types::path::Path;
use name_locks::lock_set::Mode;
use name_locks::table::{LockTable, TakeFault, Ticket};
use std::alloc::{AllocFailed, Global};
use std::marker::Model;

/// Snapshots, the oldest first. Each holds a ticket for its locks, and nobody else holds any.
#[derive(Drop)]
pub struct LockedSnapshots {
    alloc: Global,
    snapshots: Vec<Pending>,
    tickets: Vec<Ticket>,
    locks: LockTable,
}

impl Model for LockedSnapshots {
    ghost use Rattle.std.specs.Prelude.{List};
    ghost use Rattle.protocol.specs.Master.{PendingSnapshot};
    ghost use Rattle.master_waiting.specs.CallLocks.{AreLocked};

    ghost Value = { List PendingSnapshot };

    ghost view = { λ w. w.snapshots.items };

    ghost invariant = { λ w. AreLocked w.snapshots.items w.tickets.items w.locks };
}

impl LockedSnapshots {
    /// None waits. Takes no memory.
    pub fn new(alloc: Global) -> LockedSnapshots
        ensures { result ≡ [] }
    {
        LockedSnapshots {
            alloc,
            snapshots: Vec::new(alloc),
            tickets: Vec::new(alloc),
            locks: LockTable::new(alloc),
        }
    }

    /// The snapshots.
    pub fn as_slice(&self) -> &[Pending]
        ensures value { result.now ≡ self.now }
    {
        self.snapshots.as_slice()
    }

    /// Whether there is none.
    pub fn is_empty(&self) -> bool
        ensures { result ≡ (length self.now == 0) }
    {
        self.snapshots.is_empty()
    }

    /// Their names are paths.
    pub fn have_paths(&self)
        ensures { list_all has_paths self.now ≡ true }
    {
        let _locks = &self.locks;
    }

    /// Whether a snapshot holds a lock that conflicts with one of these. Takes no memory.
    #[tactic(auto, using(crate::proofs::Locked::conflicts_are))]
    pub fn conflicts(&self, locks: &[(Path, Mode)]) -> bool
        ensures answer { result ≡ list_any (λ s. sets_clash (locks_of_snapshot s) locks.now) self.now }
        ensures paths { list_all has_paths self.now ≡ true }
    {
        self.locks.conflicts(locks)
    }

    /// One more, behind the others, under its locks, with which no lock of another one conflicts.
    #[tactic(auto, using(crate::proofs::Locked::locked_more, crate::proofs::Locked::locked_still, crate::proofs::Locked::popped))]
    pub fn push(&mut self, snapshot: Pending) -> Result<(), PlanFault>
        requires { list_any (λ s. sets_clash (locks_of_snapshot s) (locks_of_snapshot snapshot)) self.old ≡ false }
        ensures ok { OnOk result (self.new ≡ self.old ++ snapshot ∷ []) }
        ensures err { OnErr result (self.new ≡ self.old) }
    {
        if self.snapshots.push(snapshot).is_err() {
            return Err(PlanFault::NoMemory);
        }
        let last = self.snapshots.len() - 1;
        let taken = take_locks(
            self.alloc,
            &self.snapshots[last],
            &mut self.tickets,
            &mut self.locks,
        );
        if taken.is_err() {
            let _snapshot = self.snapshots.pop();
        }
        taken
    }

    /// Those whose deadline has come go, and give their locks back. Takes no memory.
    #[tactic(auto, using(crate::proofs::Due::none_due, crate::proofs::Due::due))]
    pub fn keep_live(&mut self, now: u64)
        ensures { self.new ≡ live_snapshots now self.old }
    {
        while let Some(index) = self.first_due(now) {
            self.remove_at(index);
        }
    }

    fn first_due(&self, now: u64) -> Option<usize>
        ensures { result ≡ position (λ s. not (nat_lt now s.deadline)) self.now }
    {
        self.snapshots
            .iter()
            .position(|snapshot| !(now < snapshot.deadline().0))
    }

    /// That of a client's call of this number goes, and gives its locks back. Takes no memory.
    #[tactic(auto, using(crate::proofs::Due::none_due, crate::proofs::Due::due))]
    pub fn remove_call(&mut self, client: ClientId, number: u64)
        ensures { self.new ≡ filter (λ other. not ((client.0 == other.client) && (number == other.number))) self.old }
    {
        while let Some(index) = self.first_of_call(client, number) {
            self.remove_at(index);
        }
    }

    fn first_of_call(&self, client: ClientId, number: u64) -> Option<usize>
        ensures { result ≡ position (λ s. not (not ((client.0 == s.client) && (number == s.number)))) self.now }
    {
        self.snapshots
            .iter()
            .position(|snapshot| is_of_call(snapshot, client, number))
    }

    // One goes.
    #[tactic(auto, using(crate::proofs::Locked::locked_less, crate::proofs::Locked::is_open))]
    fn remove_at(&mut self, index: usize)
        requires { index < length self.old }
        ensures { self.new ≡ remove self.old index }
    {
        let _snapshot = self.snapshots.remove(index);
        let ticket = self.tickets.remove(index);
        self.locks.give(ticket);
    }

    /// Whether a client has one.
    pub fn has_of(&self, client: ClientId) -> bool
        ensures { result ≡ list_any (λ s. s.client == client.0) self.now }
    {
        self.snapshots
            .iter()
            .any(|snapshot| snapshot.client().0 == client.0)
    }

    /// Whether that of a client's call of this number is among them.
    pub fn has_call(&self, client: ClientId, number: u64) -> bool
        ensures { result ≡ list_any (λ s. (s.client == client.0) && (s.number == number)) self.now }
    {
        self.snapshots.iter().any(|snapshot| snapshot.client().0 == client.0
            && snapshot.number() == number)
    }

    /// Where a chunk was found that the snapshot of a client's call of this number waits for. Takes no memory.
    pub fn note(&mut self, client: ClientId, number: u64, awaited: Awaited)
        ensures { self.new ≡ self.old }
    {
        note_at_call(&mut self.snapshots, client, number, awaited);
    }

    /// A copy of the list.
    pub fn copies(&self, alloc: Global) -> Result<Vec<Pending>, NoMemory>
        ensures { IfOk result (λ v. v.items ≡ self.now) }
    {
        copies_of(alloc, &self.snapshots)
    }
}

// A ticket for the locks of a snapshot, behind the others. Nothing is taken where memory is refused.
fn take_locks(
    alloc: Global,
    snapshot: &Pending,
    tickets: &mut Vec<Ticket>,
    locks: &mut LockTable,
) -> Result<(), PlanFault>
    requires { has_conflict locks.old (locks_of_snapshot snapshot.now) ≡ false }
    ensures ok { OnOk result (TakesOne tickets.old.items tickets.new.items locks.old locks.new (locks_of_snapshot snapshot.now)) }
    ensures paths { OnOk result (has_paths snapshot.now ≡ true) }
    ensures err { OnErr result ((tickets.new.items ≡ tickets.old.items) × AreKept locks.old locks.new) }
{
    let wanted = snapshot_locks(alloc, snapshot.from(), snapshot.to())?;
    match locks.try_take(&wanted) {
        Ok(ticket) => Ok(push_ticket(tickets, locks, ticket)?),
        Err(TakeFault::Conflict) => unreachable!(),
        Err(TakeFault::NoMemory) => Err(PlanFault::NoMemory),
    }
}

// A ticket behind the others. It is given back where it finds no room.
fn push_ticket(
    tickets: &mut Vec<Ticket>,
    locks: &mut LockTable,
    ticket: Ticket,
) -> Result<(), NoMemory>
    requires { IsSome (held_by locks.old ticket) }
    ensures ok { OnOk result ((tickets.new.items ≡ tickets.old.items ++ ticket ∷ []) × (locks.new ≡ locks.old)) }
    ensures err { OnErr result ((tickets.new.items ≡ tickets.old.items) × Changes locks.old locks.new ticket None) }
{
    match tickets.push(ticket) {
        Ok(()) => Ok(()),
        Err(AllocFailed { value }) => {
            locks.give(value);
            Err(NoMemory)
        }
    }
}

fn is_of_call(snapshot: &Pending, client: ClientId, number: u64) -> bool
    ensures { result ≡ not (not ((client.0 == snapshot.now.client) && (number == snapshot.now.number))) }
{
    client.0 == snapshot.client().0 && number == snapshot.number()
}
