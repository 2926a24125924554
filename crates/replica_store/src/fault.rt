//! Why a store didn't do what it was asked for.

ghost use Rattle.std.specs.Prelude.{◌≡◌, Some};
ghost use Rattle.replica_store.specs.Texts.{store_fault_text};
ghost use Rattle.replica_store.specs.declared.fault.ReplicaStoreFault.TheVariants.{NoMemory as OutOfMemory};

use gfs_types::no_memory::NoMemory;
use std::alloc::AllocError;
use std::error::Error;
use std::fmt;

/// Why a store didn't do what it was asked for.
#[derive(Clone, Copy, Debug, PartialEq, Eq)]
pub enum ReplicaStoreFault {
    /// An allocator refused what the call needs.
    NoMemory,
    /// A call of the disk failed, or the disk isn't fit or has to be opened again.
    DiskFailed,
    /// A place past the last one, or a replica more, than the store can have; or a change that can't be made.
    NoRoom,
    /// What stands on the disk is no store of this layout. An opening's alone.
    Damaged,
}

impl fmt::Display for ReplicaStoreFault {
    ghost output = { λ fault. Some (store_fault_text fault) };

    fn fmt<W: fmt::Write>(&self, f: &mut fmt::Formatter<W>) -> fmt::Result {
        match self {
            ReplicaStoreFault::NoMemory => write!(f, "no memory"),
            ReplicaStoreFault::DiskFailed => write!(f, "the disk failed"),
            ReplicaStoreFault::NoRoom => write!(f, "no room"),
            ReplicaStoreFault::Damaged => write!(f, "the disk is damaged"),
        }
    }
}

impl Error for ReplicaStoreFault {}

impl From<NoMemory> for ReplicaStoreFault {
    ghost from_gives = { λ _ e. e ≡ OutOfMemory };

    fn from(_fault: NoMemory) -> ReplicaStoreFault {
        ReplicaStoreFault::NoMemory
    }
}

impl From<AllocError> for ReplicaStoreFault {
    ghost from_gives = { λ _ e. e ≡ OutOfMemory };

    fn from(_fault: AllocError) -> ReplicaStoreFault {
        ReplicaStoreFault::NoMemory
    }
}
