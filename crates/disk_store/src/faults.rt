//! Faults of the disk and of the store on it, as the servers' store has them.

ghost use Rattle.std.specs.Prelude.{◌≡◌};
ghost use Rattle.disk_store.specs.Faults.{of_change, of_disk, of_opening};

use chunk_store::OpenFault;
use disk::DiskFault;
use replica_store::fault::ReplicaStoreFault;
use store_changes::StoreFault as ChangeFault;

pub(crate) fn fault_of_disk(fault: DiskFault) -> ReplicaStoreFault
    ensures { result ≡ of_disk fault }
{
    match fault {
        DiskFault::Device => ReplicaStoreFault::DiskFailed,
        DiskFault::NoMemory => ReplicaStoreFault::NoMemory,
    }
}

/// A fault of the opening.
pub fn fault_of_opening(fault: OpenFault) -> ReplicaStoreFault
    ensures { result ≡ of_opening fault }
{
    match fault {
        OpenFault::Damaged => ReplicaStoreFault::Damaged,
        OpenFault::Device => ReplicaStoreFault::DiskFailed,
        OpenFault::NoMemory => ReplicaStoreFault::NoMemory,
    }
}

pub(crate) fn fault_of(fault: ChangeFault) -> ReplicaStoreFault
    ensures { result ≡ of_change fault }
{
    match fault {
        ChangeFault::NoMemory => ReplicaStoreFault::NoMemory,
        ChangeFault::NoRoom => ReplicaStoreFault::NoRoom,
        ChangeFault::NoChunk
        | ChangeFault::Version
        | ChangeFault::OldSerial
        | ChangeFault::Corrupt
        | ChangeFault::Device => ReplicaStoreFault::DiskFailed,
    }
}
