//! Takes a journal out of its table again, in which nothing was written.

ghost use Rattle.std.specs.Prelude.{◌≡◌, [], IfSome, IfNone};
ghost use Rattle.cell_journal.specs.Writers.{IsAt, WritesAll};

use crate::history::History;
use crate::history_end::take_out;
use crate::journal_lock::{acquire, shut};
use crate::{JournalWriter, SharedHistory};
use std::sync::Wait;
use std::thread;
use std::time::{Clock, Duration};

/// Takes the journal out of its table. This writer writes for every node and wrote nothing, so the journal has no entries. It never comes back to
/// this table.
pub fn reclaim<R: Wait + Clock>(
    rt: &R,
    shared: &SharedHistory,
    writer: &mut JournalWriter,
) -> History
    requires shared { IsAt shared.now.table_id writer.old.table_id }
    requires all { WritesAll writer.old.me }
    ensures cell { result.cell ≡ writer.old.me.0.of }
    ensures none { result.entries ≡ [] }
{
    for _ in rt.forever() {
        if let Some(history) = try_reclaim(rt, shared, writer) {
            return history;
        }
        thread::sleep(rt, Duration::from_millis(1));
    }
    unreachable!()
}

// Takes the journal out, if it is there.
fn try_reclaim(
    rt: &impl Wait,
    shared: &SharedHistory,
    writer: &mut JournalWriter,
) -> Option<History>
    requires shared { IsAt shared.now.table_id writer.old.table_id }
    requires all { WritesAll writer.old.me }
    ensures some { IfSome result (λ h. (h.cell ≡ writer.old.me.0.of) × (h.entries ≡ [])) }
    ensures none { IfNone result ((writer.new.table_id ≡ writer.old.table_id) × (writer.new.me ≡ writer.old.me)) }
{
    if !acquire(rt, shared, writer) {
        return None;
    }
    shut(shared, writer);
    take_out(shared, writer)
}
