//! Lists of snapshots that wait (section 3.4).

ghost use Rattle.std.specs.Prelude.{◌≡◌, true, IfOk};
ghost use Rattle.master_waiting.specs.Due.{are_due_from};

use crate::waiting::{Awaited, Pending};
use gfs_types::ids::ClientId;
use gfs_types::no_memory::NoMemory;
use std::alloc::Global;

/// Where a chunk was found that the snapshot of a client's call of this number waits for.
pub fn note_at_call(snapshots: &mut Vec<Pending>, client: ClientId, number: u64, awaited: Awaited)
    ensures { snapshots.new.items ≡ snapshots.old.items }
{
    let mut awaited = Some(awaited);
    for snapshot in snapshots.iter_mut() {
        if snapshot.client == client.0 && snapshot.number == number {
            snapshot.awaited = awaited.take();
        }
    }
}

/// The earliest deadline; of no snapshot the last moment.
pub fn earliest_of(snapshots: &[Pending]) -> u64
    ensures { are_due_from result snapshots.now ≡ true }
{
    let mut earliest = u64::MAX;
    for snapshot in snapshots {
        earliest = earliest.min(snapshot.deadline().0);
    }
    earliest
}

/// A copy of a list.
pub fn copies_of(alloc: Global, snapshots: &[Pending]) -> Result<Vec<Pending>, NoMemory>
    ensures { IfOk result (λ v. v.items ≡ snapshots.now) }
{
    let mut copies = Vec::new(alloc);
    for snapshot in snapshots {
        copies.push(snapshot.copy(alloc)?)?;
    }
    Ok(copies)
}

impl Pending {
    /// An equal one.
    pub fn copy(&self, alloc: Global) -> Result<Pending, NoMemory>
        ensures { IfOk result (λ s. s ≡ self.now) }
    {
        Ok(Pending {
            client: self.client,
            number: self.number,
            deadline: self.deadline,
            from: self.from.copy(alloc)?,
            to: self.to.copy(alloc)?,
            awaited: self.copied_awaited(alloc)?,
        })
    }

    fn copied_awaited(&self, alloc: Global) -> Result<Option<Awaited>, NoMemory> {
        match &self.awaited {
            Some(awaited) => Ok(Some(Awaited {
                path: awaited.path.copy(alloc)?,
                index: awaited.index,
            })),
            None => Ok(None),
        }
    }
}
