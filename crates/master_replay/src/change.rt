//! A change is logged, and then made.

ghost use Rattle.std.specs.Prelude.{◌≡◌, ◌↔◌, [], true, false, OnOk, IfErr, IsErrOf, IsTrue};
ghost use Rattle.protocol.specs.Logged.{AppendRecord, after_record, log_changed};
ghost use Rattle.protocol.specs.LogSizes.{record_fits};
ghost use Rattle.operation_log.specs.declared.fault.OperationLogFault.TheVariants.{Full};
ghost use Rattle.master_state.specs.Follows.{follows};
ghost use Rattle.master_replay.specs.Changes.{LeavesLog, LeavesState};
ghost use Rattle.master_replay.specs.declared.fault.ChangeFault.TheVariants.{Log};

use crate::fault::ChangeFault;
use crate::replay::replay;
use log_records::record::Record;
use master_state::state::State;
use operation_log::log::OperationLog;
use std::alloc::Allocator;

/// Logs a record, and then the state follows. Log(Full) comes exactly where there is no room for it.
pub fn change<L: OperationLog, A: Allocator + Clone>(
    log: &mut L,
    state: &mut State<A>,
    entry: &Record,
) -> Result<(), ChangeFault>
    requires decided { L.under_way log.old ≡ [] }
    requires follows { IsTrue (follows state.old entry.now) }
    ensures state { OnOk result (state.new ≡ after_record state.old entry.now) }
    ensures disk { OnOk result (L.disk log.new ≡ log_changed (L.disk log.old) (AppendRecord entry.now)) }
    ensures done { OnOk result (L.under_way log.new ≡ []) }
    ensures fits { OnOk result (record_fits (L.log_bytes log.old) (L.disk log.old).items (L.disk log.old).records entry.now ≡ true) }
    ensures full { IsErrOf result (Log Full) ↔ record_fits (L.log_bytes log.old) (L.disk log.old).items (L.disk log.old).records entry.now ≡ false }
    ensures full_changes_nothing { IsErrOf result (Log Full) → L.under_way log.new ≡ [] }
    ensures leaves_log { IfErr result (λ e. LeavesLog e (L.disk log.old) (AppendRecord entry.now) (L.disk log.new) (L.under_way log.new)) }
    ensures leaves_state { IfErr result (λ e. LeavesState e state.old state.new) }
    ensures size { L.log_bytes log.new ≡ L.log_bytes log.old }
{
    if let Err(fault) = log.append(entry) {
        return Err(ChangeFault::Log(fault));
    }
    match replay(state, entry) {
        Ok(()) => Ok(()),
        Err(fault) => Err(ChangeFault::Replay(fault)),
    }
}
