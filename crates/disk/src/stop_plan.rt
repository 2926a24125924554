//! The stops that a script chose for the disk of a node.

ghost use Rattle.disk.specs.Device.{Only};
ghost use Rattle.disk.specs.Writes.{LeftBy};

use crate::device::Disk;
use crate::fuse::FuseDisk;
use gfs_types::torn::Torn;
use std::alloc::Global;

/// What a script chose for the stops of a node's disk. Whoever keeps the node lets its disk stop and begin again by this.
#[derive(Drop)]
pub struct StopPlan {
    // what the next beginning finds in ranges that were written since the last sync
    torn: Torn,
    // the stop that takes hold once the disk has begun again
    next: Option<(u64, Torn)>,
}

impl StopPlan {
    /// Nothing was chosen: the next beginning finds what was written.
    pub fn new() -> StopPlan {
        StopPlan {
            torn: Torn::New,
            next: None,
        }
    }

    /// The next beginning finds the ranges that were written since the last sync so.
    pub fn tear(&mut self, torn: Torn) {
        self.torn = torn;
    }

    /// Once the disk has begun again, it lets so many calls pass and fails each later one; the beginning after that finds unsynced ranges so.
    /// Of several the last one counts.
    pub fn stop_after_restart(&mut self, calls: u64, torn: Torn) {
        self.next = Some((calls, torn));
    }

    /// The disk stops, and begins again with what the stop left. Takes no memory.
    pub fn restart(&mut self, disk: FuseDisk<Global>) -> FuseDisk<Global>
        ensures lawful { LeftBy disk.disk result.disk.bytes }
        ensures durable { Only result.disk.bytes (LeftBy result.disk) }
    {
        let mut disk = FuseDisk::new(disk.stop(self.torn));
        self.torn = Torn::New;
        if let Some((calls, torn)) = self.next {
            disk.arm(calls);
            self.torn = torn;
            self.next = None;
        }
        disk
    }
}
