//! Whether a record or a checkpoint fits into the log's disk.

ghost use Rattle.std.specs.Prelude.{◌≡◌, ◌<◌, ◌^◌, [], is_some, IfOk, IfSome};
ghost use Rattle.protocol.specs.LogSizes.{used_size, checkpoint_size, record_fits, checkpoint_fits};
ghost use Rattle.protocol.specs.Logged.{log_changed_by_all};
ghost use Rattle.master_plan.specs.Changes.{changes_of, change_of};
ghost use Rattle.master_plan.specs.Sizes.{size_after};

use crate::change::PlannedChange;
use log_records::record::Record;
use master_waiting::fault::PlanFault;
use operation_log::log::OperationLog;
use operation_log::sizes::{area_size, used_with};

// An area's head.
const HEAD: u64 = 13;

// A gate and a length before a record.
const AROUND_RECORD: u64 = 5;

// A length before an item.
const AROUND_ITEM: u64 = 4;

#[tactic(auto, using(crate::proofs::LogBytes::item_more, crate::proofs::LogBytes::too_many))]
/// The bytes of an area that a checkpoint of these items takes; None where it doesn't fit.
pub fn checkpoint_bytes(log_bytes: u64, items: &[Record]) -> Option<u64>
    ensures room { is_some result ≡ checkpoint_fits log_bytes items.now }
    ensures size { IfSome result (λ n. n ≡ used_size items.now []) }
    ensures small { IfSome result (λ n. n < 2 ^ 63) }
{
    let mut used = HEAD;
    for item in items {
        let Some(after) = used_with(log_bytes, used, AROUND_ITEM, item) else {
            return None;
        };
        used = after;
    }
    if used < area_size(log_bytes) {
        Some(used)
    } else {
        None
    }
}

fn bytes_after(log_bytes: u64, used: u64, change: &PlannedChange) -> Option<u64>
    ensures { IfSome result (λ n. n ≡ size_after used (change_of change.now)) }
{
    match change {
        PlannedChange::Append(entry) => used_with(log_bytes, used, AROUND_RECORD, entry),
        PlannedChange::Checkpoint(items) => checkpoint_bytes(log_bytes, items.as_slice()),
    }
}

#[tactic(auto, using(crate::proofs::LogBytes::used_more))]
/// The bytes of an area that the log takes once these changes are made. Damaged: they don't fit, which no step comes to.
pub fn bytes_used<L: OperationLog>(
    log: &L,
    log_bytes: u64,
    changes: &[PlannedChange],
) -> Result<u64, PlanFault>
    ensures { let disk = log_changed_by_all (L.disk log.now) (changes_of changes.now) in IfOk result (λ n. n ≡ used_size disk.items disk.records) }
{
    let mut used = log.used();
    for change in changes {
        let Some(after) = bytes_after(log_bytes, used, change) else {
            return Err(PlanFault::Damaged);
        };
        used = after;
    }
    Ok(used)
}
