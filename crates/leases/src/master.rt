//! Leases as the master sees them.

ghost use Rattle.std.specs.Prelude.{◌≡◌, ◌≤◌, ◌↔◌, IsTrue};
ghost use Rattle.leases.specs.LeaseEnds.{has_ended, extended};

use chunk_table::chunk::Chunk;
use chunk_table::table::Table;
use gfs_types::ids::{Handle, Moment};

/// Whether the chunk's lease has ended: its end is at or before that moment.
pub fn ended(chunk: &Chunk, now: Moment) -> bool
    ensures { result ≡ has_ended chunk.now now.0 }
{
    chunk.lease_end().0 <= now.0
}

/// Whether a version number may be issued, as far as lease and owners say: exactly where the lease has ended and one file owns the
/// chunk. That no snapshot or copy of it is under way is the caller's to look at.
pub fn may_issue(chunk: &Chunk, now: Moment) -> bool
    ensures { IsTrue result ↔ (chunk.now.lease_end ≤ now.0) × (chunk.now.references ≡ 1) }
{
    ended(chunk, now) && chunk.references() == 1
}

/// Moves the end of a lease that has not ended to `now + lease_ms` milliseconds, where that is later; else nothing changes. The end
/// is at most the last moment that a `u64` holds. That no snapshot waits for the chunk is the caller's to look at.
pub fn extend(table: &mut Table, handle: Handle, now: Moment, lease_ms: u64)
    ensures { table.new ≡ extended table.old handle.0 now.0 lease_ms }
{
    let Some(chunk) = table.chunk(handle) else {
        return;
    };
    let until = now.0.saturating_add(lease_ms);
    let old = chunk.lease_end().0;
    if now.0 < old && old < until {
        table.set_end(handle, Moment(until));
    }
}
