//! The order to drop a replica.

use gfs_types::ids::{Handle, Version};

/// A server is to drop its replica of a chunk, where it is of this version or an older one.
#[derive(Clone, Copy, Debug, PartialEq, Eq)]
pub struct DropOrder {
    pub handle: Handle,
    pub version: Version,
}
