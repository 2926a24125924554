//! What a slot says of its replica.

use gfs_types::ids::{Handle, Serial, Version};

/// What a slot that is used says of its replica. `count` is the number of the replica's bytes.
#[derive(Clone, Copy, Debug, PartialEq, Eq)]
pub struct SlotHeader {
    pub handle: Handle,
    pub version: Version,
    pub serial: Serial,
    pub count: u64,
}
