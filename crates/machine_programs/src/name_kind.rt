//! What a name stands for.

use gfs_types::ids::FileId;

/// A directory, or a file under its id (section 4.1 of the Google File System paper).
#[derive(Clone, Copy, Debug, PartialEq, Eq)]
pub enum PlainNameKind {
    Dir,
    File(FileId),
}
