//! A change of the master's log that a step is to make.

use gfs_types::lists::Sequence;
use log_records::record::Record;

/// Records or items of the log, in order.
pub type RecordList = Sequence<Record>;

/// One change of the log.
pub enum PlannedChange {
    /// A record is added.
    Append(Record),
    /// A checkpoint of these items takes the place of the log's items and records.
    Checkpoint(RecordList),
}

// Stands here, once, so that no function that lets one go, here or above, takes its variants apart.
impl Drop for PlannedChange {
    fn drop(self) {
        match self {
            Self::Append(_record) => {}
            Self::Checkpoint(_items) => {}
        }
    }
}

/// Changes of the log, in the order in which they are made.
pub type PlannedChangeList = Sequence<PlannedChange>;
