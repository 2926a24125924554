//! What is known of a replica without a look at its bytes.

use gfs_types::ids::{Serial, Version};

/// A replica's version, the serial of the last mutation that it applied under it, and how many bytes it has.
#[derive(Clone, Copy, Debug, PartialEq, Eq)]
pub struct Row {
    pub version: Version,
    pub serial: Serial,
    pub count: u64,
}
