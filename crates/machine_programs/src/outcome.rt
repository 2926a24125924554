//! What a name step comes to.

use gfs_types::answer::Answer;
use gfs_types::ids::FileId;

/// An answer, or the file that Open found.
#[derive(Debug, PartialEq, Eq, Drop)]
pub enum NameOutcome {
    Replies(Answer),
    Opens(FileId),
}
