//! What is shown of a chunk's replicas.

use gfs_types::ids::{ServerId, Version};

/// A replica as its server stores it: its version, and its length in bytes.
#[derive(Clone, Copy, Debug, PartialEq, Eq)]
pub struct StoredReplica {
    pub server: ServerId,
    pub version: Version,
    pub length: u64,
}
