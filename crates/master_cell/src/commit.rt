//! How the changes of a step are made on the log.

ghost use Rattle.std.specs.Prelude.{◌≡◌, [], true, OnOk, OnErr};
ghost use Rattle.protocol.specs.Logged.{WriteCheckpoint, log_changed, log_changed_by_all};
ghost use Rattle.protocol.specs.LogSizes.{checkpoint_fits};
ghost use Rattle.operation_log.specs.Logs.{MayBeUnderWay};
ghost use Rattle.master_plan.specs.Changes.{change_of, changes_of};
ghost use Rattle.master_cell.specs.Commits.{IsStopped};

use log_records::record::Record;
use master_plan::change::PlannedChange;
use operation_log::fault::OperationLogFault;
use operation_log::log::OperationLog;

/// Makes changes of the log in order. Where one fails, those before it are made, and it may be under way.
pub fn commit<L: OperationLog>(
    log: &mut L,
    changes: &[PlannedChange],
) -> Result<(), OperationLogFault>
    requires decided { L.under_way log.old ≡ [] }
    ensures ok { OnOk result (L.disk log.new ≡ log_changed_by_all (L.disk log.old) (changes_of changes.now)) }
    ensures done { OnOk result (L.under_way log.new ≡ []) }
    ensures err { OnErr result (IsStopped (L.disk log.old) (changes_of changes.now) (L.disk log.new) (L.under_way log.new)) }
{
    for change in changes {
        if let Err(fault) = make(log, change) {
            return Err(fault);
        }
    }
    Ok(())
}

fn make<L: OperationLog>(log: &mut L, change: &PlannedChange) -> Result<(), OperationLogFault>
    requires decided { L.under_way log.old ≡ [] }
    ensures ok { OnOk result (L.disk log.new ≡ log_changed (L.disk log.old) (change_of change.now)) }
    ensures done { OnOk result (L.under_way log.new ≡ []) }
    ensures err { OnErr result (L.disk log.new ≡ L.disk log.old) }
    ensures begun { OnErr result (MayBeUnderWay (change_of change.now) (L.under_way log.new)) }
{
    match change {
        PlannedChange::Append(entry) => log.append(entry),
        PlannedChange::Checkpoint(items) => write_checkpoint(log, items.as_slice()),
    }
}

fn write_checkpoint<L: OperationLog>(log: &mut L, items: &[Record]) -> Result<(), OperationLogFault>
    requires decided { L.under_way log.old ≡ [] }
    ensures ok { OnOk result (L.disk log.new ≡ log_changed (L.disk log.old) (WriteCheckpoint items.now)) }
    ensures done { OnOk result (L.under_way log.new ≡ []) }
    ensures err { OnErr result (L.disk log.new ≡ L.disk log.old) }
    ensures begun { OnErr result (MayBeUnderWay (WriteCheckpoint items.now) (L.under_way log.new)) }
{
    add_items(log, items)?;
    log.end_checkpoint()
}

// The items of a checkpoint, the log as it was. A checkpoint without any item is no lawful one.
fn add_items<L: OperationLog>(log: &mut L, items: &[Record]) -> Result<(), OperationLogFault>
    requires decided { L.under_way log.old ≡ [] }
    ensures ok { OnOk result (L.writing log.new ≡ items.now) }
    ensures fits { OnOk result (checkpoint_fits (L.log_bytes log.new) items.now ≡ true) }
    ensures disk { L.disk log.new ≡ L.disk log.old }
    ensures under_way { L.under_way log.new ≡ [] }
{
    log.begin_checkpoint()?;
    if items.is_empty() {
        return Err(OperationLogFault::Damaged);
    }
    for item in items {
        log.add_item(item)?;
    }
    Ok(())
}
