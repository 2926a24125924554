//! Why a change of the table was refused.

use thiserror::Error;

/// A change that was refused has changed nothing; a table that refuses a file of a checkpoint is dropped.
#[derive(Clone, Copy, Debug, PartialEq, Eq, Error)]
pub enum TableFault {
    /// The table has no such file.
    #[error("no such file")]
    NoFile,
    /// The table has no such chunk.
    #[error("no such chunk")]
    NoChunk,
    /// The file has no chunk of that index.
    #[error("no chunk of that index")]
    NoIndex,
    /// That version is not the one that was issued last, or it is granted already; of a row that is put, the granted one is past the one that was issued last.
    #[error("version not issued last")]
    NotIssued,
    /// The chunk has an owner.
    #[error("chunk has an owner")]
    Owned,
    /// The table has that file.
    #[error("file exists")]
    Exists,
    /// That file id or handle was not given out.
    #[error("id not given out")]
    NotGiven,
    /// A counter would pass [`gfs_types::ids::MAX_COUNTER`], or one that is put would fall.
    #[error("counter at its limit")]
    Limit,
    /// The allocator refused a growth. No other cause held.
    #[error("no memory")]
    NoMemory,
}
