//! What is known of a disk that was read.

ghost use Rattle.std.specs.Prelude.{IfOk};
ghost use Rattle.chunk_store.specs.Stores.{IsOpen};
ghost use Rattle.replica_store.specs.Replicas.{ServerDisk};
ghost use Rattle.disk_store.specs.Known.{IsKnownOf};

use crate::known::Known;
use chunk_store::Store;
use disk::Disk;
use std::alloc::{AllocError, Global};

/// What is known of an open store's disk.
pub fn known_of<D: Disk>(alloc: Global, store: &Store<D>) -> Result<Known, AllocError>
    ensures { (d : ServerDisk) → IsOpen D.seen D.may_leave store.now d → IfOk result (λ known. IsKnownOf known.order known.rows d) }
{
    let rows = store.list(alloc)?;
    Known::of(alloc, store.order(), rows.as_slice())
}
