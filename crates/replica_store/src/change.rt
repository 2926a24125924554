//! The changes of a server's disk. A stop leaves the disk as it was before a change or after it.

use bytes::Bytes;
use gfs_types::ids::{Handle, OrderNo, Serial, Version};
use gfs_types::lists::Sequence;

/// One change of a server's disk. Offsets count bytes from the chunk's start.
pub enum StoreChange {
    /// The number of the last order that the server took.
    SetOrder(OrderNo),
    /// A new replica with these bytes.
    Put {
        handle: Handle,
        version: Version,
        serial: Serial,
        bytes: Bytes,
    },
    /// The mutation of this serial put these bytes there.
    Write {
        handle: Handle,
        serial: Serial,
        offset: u64,
        bytes: Bytes,
    },
    /// The mutation of this serial put so many zeros there.
    Zero {
        handle: Handle,
        serial: Serial,
        offset: u64,
        count: u64,
    },
    /// A new version, under which serials begin anew.
    Raise {
        handle: Handle,
        version: Version,
    },
    /// A new replica under the handle `copy`, with the bytes of this one.
    Copy {
        handle: Handle,
        copy: Handle,
        version: Version,
    },
    /// The replica goes.
    Remove(Handle),
    /// A byte becomes another, past its digest, as on a failing disk.
    Rot {
        handle: Handle,
        place: u64,
        byte: u8,
    },
}

// Stands here, once, so that no function that lets one go, here or above, takes its variants apart.
impl Drop for StoreChange {
    fn drop(self) {
        match self {
            Self::SetOrder(_) => {}
            Self::Put {
                handle: _,
                version: _,
                serial: _,
                bytes: _bytes,
            } => {}
            Self::Write {
                handle: _,
                serial: _,
                offset: _,
                bytes: _bytes,
            } => {}
            Self::Zero {
                handle: _,
                serial: _,
                offset: _,
                count: _,
            } => {}
            Self::Raise {
                handle: _,
                version: _,
            } => {}
            Self::Copy {
                handle: _,
                copy: _,
                version: _,
            } => {}
            Self::Remove(_) => {}
            Self::Rot {
                handle: _,
                place: _,
                byte: _,
            } => {}
        }
    }
}

/// Changes in their order.
pub type ChangeList = Sequence<StoreChange>;
