//! Where a record goes.

/// Where a record goes in a chunk. Offsets count bytes from the chunk's start.
#[derive(Clone, Copy, Debug, PartialEq, Eq)]
pub enum Placing {
    /// The record begins at this offset, and ends within the chunk.
    At(u64),
    /// The chunk is padded with zeros from this offset to its end, and the record goes to the next chunk.
    Pad(u64),
    /// The chunk has no room at all: the record goes to the next chunk.
    Full,
    /// The record is longer than a quarter of a chunk.
    TooLong,
}
