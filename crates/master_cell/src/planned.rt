//! What a step is to do, before its changes are made.

ghost use Rattle.std.specs.Prelude.{◌≡◌, ◌≤◌, false, OnOk};
ghost use Rattle.std.specs.Option.{option_copied};
ghost use Rattle.protocol.specs.Tables.{moment_limit};
ghost use Rattle.protocol.specs.Sending.{client_number, server_number};
ghost use Rattle.protocol.specs.MasterStep.{master_takes, master_ticks, master_does};
ghost use Rattle.master_plan.specs.Plans.{doing};
ghost use Rattle.master_cell.specs.Inputs.{input_of};
ghost use Rattle.master_cell.specs.Kinds.{is_name, is_of_client};
ghost use Rattle.master_names.specs.Doing.{IsPlanned};
ghost use Rattle.master_cell.specs.Ends.{Goes};

use gfs_types::ids::{ClientId, Moment, Node, ServerId};
use master_chunks::asking::takes_ask;
use master_names::looks::takes_look;
use master_names::names::takes_name;
use master_names::ready::takes_ready;
use master_plan::plan::Plan;
use master_reports::report::takes_report;
use master_reports::tick::master_ticks;
use master_reports::told::{takes_cloned, takes_recorded, takes_revoked};
use master_waiting::fault::PlanFault;
use messages::message::{Body, Message};
use operation_log::log::OperationLog;
use std::alloc::Allocator;

// A step on a message, or on a tick.
pub(crate) fn plan_step<L: OperationLog, A: Allocator + Clone>(
    log: &L,
    plan: &mut Plan<A>,
    now: Moment,
    message: Option<&Message>,
) -> Result<(), PlanFault>
    requires { now.0 ≤ moment_limit }
    ensures { OnOk result (Goes (L.disk log.now) plan.old now.0 (input_of (option_copied message.entry)) plan.new) }
{
    plan.begin(now);
    plan_input(log, plan, message)?;
    takes_ready(log, plan)?;
    Ok(())
}

fn plan_input<L: OperationLog, A: Allocator + Clone>(
    log: &L,
    plan: &mut Plan<A>,
    message: Option<&Message>,
) -> Result<(), PlanFault>
    ensures { OnOk result (IsPlanned (λ d. master_does d (input_of (option_copied message.entry))) (L.disk log.now) plan.old plan.new) }
{
    match message {
        None => plan_tick(log, plan),
        Some(message) => plan_message(log, plan, message),
    }
}

fn plan_tick<L: OperationLog, A: Allocator + Clone>(
    log: &L,
    plan: &mut Plan<A>,
) -> Result<(), PlanFault>
    ensures { OnOk result (IsPlanned master_ticks (L.disk log.now) plan.old plan.new) }
{
    master_ticks(log, plan)?;
    Ok(())
}

fn plan_message<L: OperationLog, A: Allocator + Clone>(
    log: &L,
    plan: &mut Plan<A>,
    message: &Message,
) -> Result<(), PlanFault>
    ensures { OnOk result (IsPlanned (λ d. master_takes d message.now message.now.body) (L.disk log.now) plan.old plan.new) }
{
    match &message.body {
        Body::Name {
            call_number,
            deadline,
            call,
        } => {
            let client = client_of(message.sender);
            takes_name(log, plan, client, *call_number, *deadline, call)
        }
        _ => {
            takes_unnamed(log, plan, message)?;
            Ok(())
        }
    }
}

// All but the name calls that change names.
fn takes_unnamed<L: OperationLog, A: Allocator + Clone>(
    log: &L,
    plan: &mut Plan<A>,
    message: &Message,
) -> Result<(), PlanFault>
    requires { is_name message.now.body ≡ false }
    ensures { OnOk result (master_takes (doing (L.disk log.now) plan.old) message.now message.now.body ≡ doing (L.disk log.now) plan.new) }
{
    match &message.body {
        Body::Look { call_number, call } => takes_look(plan, message.sender, *call_number, call),
        Body::Ask {
            number,
            file,
            wanted,
            deadline,
            lost_lease,
        } => takes_ask(
            log,
            plan,
            message.sender,
            *number,
            *file,
            *wanted,
            *deadline,
            *lost_lease,
        ),
        Body::Name { .. } => unreachable!(),
        _ => takes_of_servers(log, plan, message),
    }
}

// What servers tell.
fn takes_of_servers<L: OperationLog, A: Allocator + Clone>(
    log: &L,
    plan: &mut Plan<A>,
    message: &Message,
) -> Result<(), PlanFault>
    requires { is_of_client message.now.body ≡ false }
    ensures { OnOk result (master_takes (doing (L.disk log.now) plan.old) message.now message.now.body ≡ doing (L.disk log.now) plan.new) }
{
    let server = server_of(message.sender);
    match &message.body {
        Body::Recorded { handle, version } => {
            takes_recorded(log, plan, server, *handle, *version)
        }
        Body::Revoked { handle, version } => {
            takes_revoked(plan, server, *handle, *version);
            Ok(())
        }
        Body::Cloned { handle, version } => takes_cloned(plan, server, *handle, *version),
        Body::Report { replicas, leases } => takes_report(log, plan, server, replicas, leases),
        _ => Ok(()),
    }
}

fn client_of(sender: Node) -> ClientId
    ensures { result.0 ≡ client_number sender }
{
    match sender {
        Node::Client(client) => client,
        _ => ClientId(0),
    }
}

fn server_of(sender: Node) -> ServerId
    ensures { result.0 ≡ server_number sender }
{
    match sender {
        Node::Server(server) => server,
        _ => ServerId(0),
    }
}
