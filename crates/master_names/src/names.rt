//! Name calls that change the names, refusals too: what is answered is logged before.

ghost use Rattle.std.specs.Prelude.{◌≡◌, None, OnOk};
ghost use Rattle.protocol.specs.MasterNames.{master_refusal, performs, names_by, names_anew, takes_name};
ghost use Rattle.master_plan.specs.Plans.{known};
ghost use Rattle.master_names.specs.Doing.{IsPlanned};

use crate::answers::{answers_name, refuses_name};
use crate::calls::{creates, deletes, makes_directory, removes_directory, renames, waits};
use crate::locks::is_waiting;
use crate::refusals::master_refusal;
use gfs_types::call::Call;
use gfs_types::ids::{ClientId, Moment};
use master_plan::plan::Plan;
use master_waiting::fault::PlanFault;
use operation_log::log::OperationLog;
use std::alloc::Allocator;

/// A name call, whose answer is logged before it is sent. A call that was answered gets the same answer again; one with a lower
/// number, after its deadline, or that waits already gets none.
#[tactic(auto, using(crate::proofs::Parts::uses_none, crate::proofs::Parts::goes_on))]
pub fn takes_name<L: OperationLog, A: Allocator + Clone>(
    log: &L,
    plan: &mut Plan<A>,
    client: ClientId,
    number: u64,
    deadline: Moment,
    call: &Call,
) -> Result<(), PlanFault>
    ensures { OnOk result (IsPlanned (λ d. takes_name d client.0 number deadline.0 call.now) (L.disk log.now) plan.old plan.new) }
{
    if let Some(kept) = plan.state().kept_call(client) {
        if kept.number() == number {
            let refusal = kept.refusal();
            return answers_name(plan, client, number, refusal);
        }
        if number < kept.number() {
            return Ok(());
        }
    }
    names_anew(log, plan, client, number, deadline, call)
}

// A call that was not answered before.
#[tactic(auto, using(crate::proofs::Parts::uses_none, crate::proofs::Parts::goes_on))]
fn names_anew<L: OperationLog, A: Allocator + Clone>(
    log: &L,
    plan: &mut Plan<A>,
    client: ClientId,
    number: u64,
    deadline: Moment,
    call: &Call,
) -> Result<(), PlanFault>
    ensures { OnOk result (IsPlanned (λ d. names_anew d client.0 number deadline.0 call.now) (L.disk log.now) plan.old plan.new) }
{
    if deadline.0 <= plan.now().0 || is_waiting(plan, client, number) {
        return Ok(());
    }
    match master_refusal(plan, call)? {
        Some(refusal) => refuses_name(log, plan, client, number, refusal),
        None => performs(log, plan, client, number, deadline, call),
    }
}

// A call that meets no refusal: a snapshot begins to wait, and the others take effect.
#[tactic(auto, using(crate::proofs::Parts::uses_none, crate::proofs::Snapshots::begins, crate::proofs::Snapshots::not_busy))]
fn performs<L: OperationLog, A: Allocator + Clone>(
    log: &L,
    plan: &mut Plan<A>,
    client: ClientId,
    number: u64,
    deadline: Moment,
    call: &Call,
) -> Result<(), PlanFault>
    requires { master_refusal (known plan.old) call.now ≡ None }
    ensures { OnOk result (IsPlanned (λ d. performs d client.0 number deadline.0 call.now) (L.disk log.now) plan.old plan.new) }
{
    match call {
        Call::Mkdir(path) => makes_directory(log, plan, client, number, path),
        Call::Rmdir(path) => removes_directory(log, plan, client, number, path),
        Call::Create(path, shape) => creates(log, plan, client, number, path, *shape),
        Call::Delete(path) => deletes(log, plan, client, number, path),
        Call::Rename(from, to) => renames(log, plan, client, number, from, to),
        Call::Snapshot(from, to) => waits(plan, client, number, deadline, from, to),
        _ => Ok(()),
    }
}
