//! The locations that a client keeps, and the files that it has open.

use gfs_types::ids::{Fd, Moment};
use gfs_types::shape::Shape;
use messages::message::Location;

/// A chunk of a file, by the file's number and the chunk's place in it.
#[derive(Clone, Copy, PartialEq, Eq, Hash)]
pub struct Place {
    pub file: u64,
    pub index: u64,
}

/// A location that was told at a moment.
#[derive(Drop)]
pub struct Cached {
    pub location: Location,
    pub told: Moment,
    /// The descriptor of its file's last Open until then.
    pub opened: Fd,
}

/// A file that is open.
#[derive(Clone, Copy)]
pub struct OpenFile {
    /// How many descriptors it has.
    pub descriptors: u64,
    /// The one of its last Open.
    pub last_opened: Fd,
    /// How its chunks are, as Open was told it.
    pub shape: Shape,
    /// The index at which the last append to it succeeded.
    pub last_append: Option<u64>,
}
