//! A worked trace, in which the definitions find what was answered.

ghost use Rattle.promises.specs.Examples.{RecordIsReadAfterOpen, RecordIsReadAfterwards};

/// In the trace of two rounds a record was answered, and read afterwards by another client.
pub fn record_is_read_afterwards()
    ensures { RecordIsReadAfterwards }
{}

/// In the trace of two rounds the second record was answered, then another client opened the file again, and then it read the record.
pub fn record_is_read_after_open()
    ensures { RecordIsReadAfterOpen }
{}
