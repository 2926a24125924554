//! What the choice of a clone asks of its caller.

ghost use Rattle.std.specs.Prelude.{◌≡◌, option_map};
ghost use Rattle.rereplicate.specs.Servers.{Servers};

use gfs_types::ids::{Handle, ServerId, Version};

/// The cell's servers, with the replicas of each, as far as they told.
pub trait Holders {
    /// What is known of them.
    ghost servers: { Self → Servers };

    /// How many servers the cell has. They count from 1.
    fn server_count(&self) -> u16
        ensures { result ≡ (servers self.now).count };

    /// Whether a server counts: only those that are present hold replicas or get one.
    fn is_present(&self, server: ServerId) -> bool
        ensures { result ≡ (servers self.now).is_present server.0 };

    /// The version of a server's replica.
    fn version(&self, handle: Handle, server: ServerId) -> Option<Version>
        ensures { option_map (λ v. v.0) result ≡ (servers self.now).version_held handle.0 server.0 };

    /// How many chunks a server holds.
    fn chunks(&self, server: ServerId) -> u64
        ensures { result ≡ (servers self.now).chunks_held server.0 };

    /// Whether the attempt at this version of a chunk is still under way. Its replicas are then not copied.
    fn is_under_way(&self, handle: Handle, version: Version) -> bool
        ensures { result ≡ (servers self.now).is_under_way handle.0 version.0 };
}
