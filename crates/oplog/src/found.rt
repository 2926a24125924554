//! What was found on a disk.

use crate::counted::CountedRecords;
use crate::walk::Walk;

/// Which area is current, what it says, and a walk through its entries, where it has any.
#[derive(Drop)]
pub struct FoundArea {
    pub which: usize,
    pub number: u64,
    pub end: usize,
    pub items: CountedRecords,
    pub records: CountedRecords,
    pub walk: Option<Walk>,
}
