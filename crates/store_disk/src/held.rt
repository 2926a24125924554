//! Where a replica lies.

use replica_store::row::Row;

/// The slot that a replica lies in, and what is known of it without a look at its bytes.
#[derive(Clone, Copy, Debug, PartialEq, Eq)]
pub struct HeldReplica {
    pub slot: u32,
    pub row: Row,
}
