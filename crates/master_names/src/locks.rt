//! Which calls a snapshot that waits makes busy.

ghost use Rattle.std.specs.Prelude.{◌≡◌, IfOk, IsTrue};
ghost use Rattle.protocol.specs.MasterNames.{is_busy, is_waiting_call};
ghost use Rattle.master_waiting.specs.CallLocks.{are_paths};
ghost use Rattle.master_plan.specs.Plans.{known};

use gfs_types::call::Call;
use gfs_types::ids::ClientId;
use gfs_types::no_memory::NoMemory;
use master_plan::plan::Plan;
use master_waiting::call_locks::call_locks;
use std::alloc::Allocator;

// Whether a snapshot that waits holds a lock that conflicts. Nothing is said of a call whose texts are no paths, which is refused
// before. Takes no memory where none waits.
#[tactic(auto, using(master_waiting::proofs::Clashes::none_busy, master_waiting::proofs::Clashes::busy_is))]
pub(crate) fn is_busy<A: Allocator + Clone>(plan: &Plan<A>, call: &Call) -> Result<bool, NoMemory>
    ensures { IfOk result (λ b. IsTrue (are_paths call.now) → b ≡ is_busy (known plan.now) call.now) }
{
    if plan.snapshots().is_empty() {
        return Ok(false);
    }
    match call_locks(plan.alloc(), call)? {
        Some(locks) => Ok(plan.conflicts(&locks)),
        None => Ok(false),
    }
}

// Whether this very call waits already.
pub(crate) fn is_waiting<A: Allocator + Clone>(
    plan: &Plan<A>,
    client: ClientId,
    number: u64,
) -> bool
    ensures { result ≡ is_waiting_call (known plan.now) client.0 number }
{
    plan.has_snapshot(client, number)
}
