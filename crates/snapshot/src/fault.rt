//! Why a snapshot isn't taken.

ghost use Rattle.std.specs.Prelude.{◌≡◌};
ghost use Rattle.snapshot.specs.declared.fault.SnapshotFault.TheVariants.{NoMemory as OutOfMemory};

use gfs_types::no_memory::NoMemory;
use thiserror::Error;

/// Why a snapshot isn't taken.
#[derive(Clone, Copy, Debug, PartialEq, Eq, Error)]
pub enum SnapshotFault {
    /// The lease of a chunk has not ended.
    #[error("chunk has a lease")]
    Leased,
    /// The table has not the file that is copied, or a counter is at its limit.
    #[error("file cannot be shared")]
    Refused,
    /// An allocator refused a growth.
    #[error("no memory")]
    NoMemory,
}

impl From<NoMemory> for SnapshotFault {
    ghost from_gives = { λ _ e. e ≡ OutOfMemory };

    fn from(_: NoMemory) -> SnapshotFault {
        SnapshotFault::NoMemory
    }
}
