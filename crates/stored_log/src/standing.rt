//! How a log stands to its disk.

use log_records::record::Record;
use oplog::CountedRecords;

/// What the log in memory knows of its disk.
#[derive(Drop)]
pub enum LogStanding {
    /// The log is open on its disk, which says what was counted.
    Open,
    /// The disk has to be read anew. No change is under way.
    Unread,
    /// An append of this record failed on its way.
    Appending(Record),
    /// A checkpoint of these items failed on its way.
    Checkpointing(CountedRecords),
}
