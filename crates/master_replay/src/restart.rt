//! The state that a log says, as a restart reads it.

ghost use Rattle.std.specs.Prelude.{◌≡◌, ◌++◌, [], Some, slice_get, IfOk, OnOk, IsErrOf, IsTrue, IsFalse};
ghost use Rattle.protocol.specs.Logged.{after_records, replayed};
ghost use Rattle.master_state.specs.declared.fault.ReplayFault.TheVariants.{Damaged, NoMemory as OutOfMemory};
ghost use Rattle.master_replay.specs.Restarts.{all_follow, is_lawful, after_some, some_follows, fault_text};
ghost use Rattle.master_replay.specs.declared.restart.RestartFault.TheVariants.{Log, Replay};

use crate::replay::replay;
use gfs_types::no_memory::NoMemory;
use master_state::fault::ReplayFault;
use master_state::state::State;
use operation_log::fault::OperationLogFault;
use operation_log::log::OperationLog;
use std::alloc::{Allocator, Global};
use std::error::Error;
use std::fmt;

/// Why a log could not be read into a state.
#[derive(Clone, Copy, Debug, PartialEq, Eq)]
pub enum RestartFault {
    /// The log could not be read.
    Log(OperationLogFault),
    /// Memory was refused, or no master wrote such a log.
    Replay(ReplayFault),
}

impl fmt::Display for RestartFault {
    ghost output = { λ fault. Some (fault_text fault) };

    fn fmt<W: fmt::Write>(&self, f: &mut fmt::Formatter<W>) -> fmt::Result {
        match self {
            RestartFault::Log(fault) => write!(f, "{fault}"),
            RestartFault::Replay(fault) => write!(f, "{fault}"),
        }
    }
}

impl Error for RestartFault {}

impl From<OperationLogFault> for RestartFault {
    ghost from_gives = { λ fault e. e ≡ Log fault };

    fn from(fault: OperationLogFault) -> RestartFault {
        RestartFault::Log(fault)
    }
}

impl From<ReplayFault> for RestartFault {
    ghost from_gives = { λ fault e. e ≡ Replay fault };

    fn from(fault: ReplayFault) -> RestartFault {
        RestartFault::Replay(fault)
    }
}

impl From<NoMemory> for RestartFault {
    ghost from_gives = { λ _ e. e ≡ Replay OutOfMemory };

    fn from(_: NoMemory) -> RestartFault {
        RestartFault::Replay(ReplayFault::NoMemory)
    }
}

/// What a log says. A copy without a grant is given up. The log stays as it is. Damaged: no master wrote it.
pub fn replayed<L: OperationLog, A: Allocator + Clone>(
    log: &mut L,
    global: Global,
    alloc: A,
) -> Result<State<A>, RestartFault>
    requires decided { L.under_way log.old ≡ [] }
    ensures state { IfOk result (λ s. s ≡ replayed (L.disk log.old)) }
    ensures lawful { OnOk result (IsTrue (is_lawful (L.disk log.old))) }
    ensures damaged { IsErrOf result (Replay Damaged) → IsFalse (is_lawful (L.disk log.old)) }
    ensures disk { L.disk log.new ≡ L.disk log.old }
    ensures under_way { L.under_way log.new ≡ [] }
    ensures size { L.log_bytes log.new ≡ L.log_bytes log.old }
{
    let mut state = State::new(global, alloc)?;
    replay_log(log, &mut state)?;
    match state.give_up_all_copies() {
        Ok(()) => Ok(state),
        Err(fault) => Err(RestartFault::Replay(fault)),
    }
}

/// The state after all of a log's items and records. The log stays as it is. Damaged: one of them doesn't follow those before it.
pub fn replay_log<L: OperationLog, A: Allocator + Clone>(
    log: &mut L,
    state: &mut State<A>,
) -> Result<(), RestartFault>
    requires decided { L.under_way log.old ≡ [] }
    ensures state { OnOk result (state.new ≡ after_records (after_records state.old (L.disk log.old).items) (L.disk log.old).records) }
    ensures follows { OnOk result (IsTrue (all_follow state.old ((L.disk log.old).items ++ (L.disk log.old).records))) }
    ensures damaged { IsErrOf result (Replay Damaged) → IsFalse (all_follow state.old ((L.disk log.old).items ++ (L.disk log.old).records)) }
    ensures disk { L.disk log.new ≡ L.disk log.old }
    ensures under_way { L.under_way log.new ≡ [] }
    ensures size { L.log_bytes log.new ≡ L.log_bytes log.old }
{
    for place in 0..log.len() {
        match replay_place(log, state, place) {
            Ok(()) => {}
            Err(fault) => return Err(fault),
        }
    }
    Ok(())
}

// The state after what stands at one place of the log, where something does.
fn replay_place<L: OperationLog, A: Allocator + Clone>(
    log: &mut L,
    state: &mut State<A>,
    place: u64,
) -> Result<(), RestartFault>
    requires decided { L.under_way log.old ≡ [] }
    ensures state { OnOk result (state.new ≡ after_some state.old (slice_get ((L.disk log.old).items ++ (L.disk log.old).records) place)) }
    ensures follows { OnOk result (IsTrue (some_follows state.old (slice_get ((L.disk log.old).items ++ (L.disk log.old).records) place))) }
    ensures damaged { IsErrOf result (Replay Damaged) → IsFalse (some_follows state.old (slice_get ((L.disk log.old).items ++ (L.disk log.old).records) place)) }
    ensures disk { L.disk log.new ≡ L.disk log.old }
    ensures under_way { L.under_way log.new ≡ [] }
    ensures size { L.log_bytes log.new ≡ L.log_bytes log.old }
{
    match log.entry(place)? {
        Some(entry) => Ok(replay(state, &entry)?),
        None => Ok(()),
    }
}
