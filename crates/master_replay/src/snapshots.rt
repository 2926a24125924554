//! The replay of a Snapshot (section 3.4).

ghost use Rattle.std.specs.Prelude.{◌≡◌, ◌<◌, ◌⊎◌, OnOk, IsErrOf, IsTrue, IsFalse};
ghost use Rattle.log_records.specs.declared.record.Record.TheVariants as log;
ghost use Rattle.relaxed_file.specs.Names.{copied_entries};
ghost use Rattle.leases.specs.LeaseEnds.{last_moment};
ghost use Rattle.snapshot.specs.Copies.{are_all_closed};
ghost use Rattle.protocol.specs.Logged.{after_record};
ghost use Rattle.master_state.specs.Follows.{follows};
ghost use Rattle.master_state.specs.declared.fault.ReplayFault.TheVariants.{Damaged};

use gfs_types::ids::{ClientId, Moment};
use gfs_types::lists::Text;
use master_state::fault::ReplayFault;
use master_state::names::path_of;
use master_state::state::State;
use std::alloc::Allocator;

// The last moment, at which no lease is held.
const LAST: Moment = Moment(u64::MAX);

/// The replay of a Snapshot: each name at the source or below it is copied, and its file's chunks are shared. Damaged: a text or
/// the name of a copy is no path, a copied file isn't there, or a counter is at its limit.
#[tactic(auto, using(crate::proofs::Taken::refuted))]
pub fn replay_snapshot<A: Allocator + Clone>(
    state: &mut State<A>,
    client: ClientId,
    call: u64,
    from: &Text,
    to: &Text,
) -> Result<(), ReplayFault>
    ensures ok { OnOk result (state.new ≡ after_record state.old (log.Snapshot client call from.now to.now)) }
    ensures follows { OnOk result (IsTrue (follows state.old (log.Snapshot client call from.now to.now))) }
    ensures damaged { IsErrOf result Damaged → IsFalse (follows state.old (log.Snapshot client call from.now to.now)) }
{
    take_snapshot(state, client, call, from, to, LAST)
}

/// A Snapshot is taken at a moment, at which the leases of all its chunks have ended. Damaged: one has not, or as above.
#[tactic(auto, using(crate::proofs::Taken::copies_follow_both))]
pub fn take_snapshot<A: Allocator + Clone>(
    state: &mut State<A>,
    client: ClientId,
    call: u64,
    from: &Text,
    to: &Text,
    now: Moment,
) -> Result<(), ReplayFault>
    ensures ok { OnOk result (state.new ≡ after_record state.old (log.Snapshot client call from.now to.now)) }
    ensures follows { OnOk result (IsTrue (follows state.old (log.Snapshot client call from.now to.now))) }
    ensures closed { OnOk result (IsTrue (are_all_closed state.old.table now.0 (copied_entries state.old.names from.now to.now))) }
    ensures damaged { IsErrOf result Damaged → IsFalse (follows state.old (log.Snapshot client call from.now to.now)) ⊎ (now.0 < last_moment) }
{
    let from = path_of(state.alloc(), from)?;
    let to = path_of(state.alloc(), to)?;
    let plan = state.plan_snapshot(&from, &to)?;
    state.commit_snapshot(&plan, now)?;
    state.keep(client, call, None)?;
    Ok(())
}
