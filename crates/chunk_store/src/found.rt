//! What was found on a disk.

use gfs_types::ids::OrderNo;
use store_disk::SlotIndex;

/// The number of the last order that was taken, and where the replicas lie.
#[derive(Drop)]
pub struct FoundReplicas {
    pub order: OrderNo,
    pub index: SlotIndex,
}
