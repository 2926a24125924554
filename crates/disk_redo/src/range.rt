//! The ranges of a change, and the area that they are written to first.

use bytes::Bytes;

/// One range of a change: where on the disk it begins, and its new bytes.
#[derive(Debug, Drop)]
pub struct RedoRange {
    pub place: usize,
    pub bytes: Bytes,
}

/// Where on the disk the redo area begins, how many bytes it has, and from which place on changes may write: what lies before it stays as it is.
#[derive(Clone, Copy, Debug, PartialEq, Eq)]
pub struct RedoArea {
    pub place: usize,
    pub size: usize,
    pub first: usize,
}
