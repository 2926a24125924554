//! What a name stands for.

use gfs_types::ids::FileId;

/// A directory, or a file under its id, which no renaming changes.
#[derive(Clone, Copy, Debug, PartialEq, Eq)]
pub enum NameKind {
    Dir,
    File(FileId),
}
