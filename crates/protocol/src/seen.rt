//! What an observer sees of a step, beside its messages and its answer. No node reads it.

use gfs_types::ids::{DataId, Handle, Serial, Version};
use gfs_types::lists::Sequence;
use gfs_types::mutation::Mutation;

/// One thing that is seen of a step.
pub enum Seen {
    /// A primary gave a mutation its serial.
    Numbered {
        handle: Handle,
        version: Version,
        serial: Serial,
        data: DataId,
        mutation: Mutation,
    },
    /// All members have acknowledged it while the lease counts.
    BecameSettled {
        handle: Handle,
        version: Version,
        serial: Serial,
    },
    /// The copy of a shared chunk was begun, under a new handle.
    CopyStarted {
        handle: Handle,
        copy: Handle,
    },
}

// Stands here, once, so that no function that lets one go, here or above, takes its variants apart.
impl Drop for Seen {
    fn drop(self) {
        match self {
            Self::Numbered {
                handle: _,
                version: _,
                serial: _,
                data: _,
                mutation: _mutation,
            } => {}
            Self::BecameSettled {
                handle: _,
                version: _,
                serial: _,
            } => {}
            Self::CopyStarted { handle: _, copy: _ } => {}
        }
    }
}

/// What is seen of a step, in order.
pub type SeenList = Sequence<Seen>;
