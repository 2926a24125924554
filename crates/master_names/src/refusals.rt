//! Why a name call is refused now.

ghost use Rattle.std.specs.Prelude.{◌≡◌, Some, None, if◌then◌else◌, IfOk};
ghost use Rattle.gfs_types.specs.declared.refusal.Refusal.TheVariants.{Busy};
ghost use Rattle.protocol.specs.MasterNames.{master_refusal};
ghost use Rattle.master_plan.specs.Plans.{known};

use crate::locks::is_busy;
use gfs_types::call::Call;
use gfs_types::no_memory::NoMemory;
use gfs_types::refusal::Refusal;
use master_plan::plan::Plan;
use master_replay::refusals::{rmdir_refusal, snapshot_refusal};
use std::alloc::Allocator;

// Why a call is refused now: its paths first, then locks, then the names.
#[tactic(auto, using(crate::proofs::Refused::refusal_alike))]
pub(crate) fn master_refusal<A: Allocator + Clone>(
    plan: &Plan<A>,
    call: &Call,
) -> Result<Option<Refusal>, NoMemory>
    ensures { IfOk result (λ r. r ≡ master_refusal (known plan.now) call.now) }
{
    let is_busy = is_busy(plan, call)?;
    let state = plan.state();
    match call {
        Call::Mkdir(path) => state.mkdir_refusal(path, is_busy),
        Call::Rmdir(path) => rmdir_refusal(state, path, is_busy),
        Call::Create(path, shape) => state.create_refusal(plan.config(), path, *shape, is_busy),
        Call::Delete(path) => state.delete_refusal(path, is_busy),
        Call::Rename(from, to) => state.rename_refusal(from, to, is_busy),
        Call::Snapshot(from, to) => snapshot_refusal(state, from, to, is_busy),
        Call::Open(path) => state.open_refusal(path, is_busy),
        Call::List(path) => state.list_refusal(path, is_busy),
        Call::Close(_)
        | Call::Length(_)
        | Call::Write(_, _, _)
        | Call::Append(_, _)
        | Call::Read(_, _, _) => Ok(busy(is_busy)),
    }
}

fn busy(is_busy: bool) -> Option<Refusal>
    ensures { result ≡ (if is_busy then Some Busy else None) }
{
    if is_busy { Some(Refusal::Busy) } else { None }
}
