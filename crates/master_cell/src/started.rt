//! How the master begins.

ghost use Rattle.std.specs.Prelude.{◌≡◌, ◌<◌, ◌≤◌, [], true, IfErr, IfOk, OnErr};
ghost use Rattle.protocol.specs.Tables.{moment_limit};
ghost use Rattle.protocol.specs.Logged.{first_logged};
ghost use Rattle.protocol.specs.Seen.{no_output, down_output};
ghost use Rattle.protocol.specs.MasterStep.{started_master, opening, has_opened};
ghost use Rattle.master_plan.specs.Plans.{started, doing};
ghost use Rattle.protocol.specs.declared.down_cause.DownCause.TheVariants as causes;
ghost use Rattle.master_cell.specs.Opens.{HasNoRoom, Opens, down_over};
ghost use Rattle.master_cell.specs.Shown.{shown_in};
ghost use Rattle.master_cell.specs.Standing.{standing, IsResting};

use crate::ended::{cause_since, makes};
use crate::shown::{ShownFiles, shown_of};
use gfs_types::config::Config;
use gfs_types::ids::{MAX_COUNTER, Moment};
use gfs_types::shape::Shape;
use log_records::record::Record;
use master_plan::logging::logs;
use master_plan::plan::Plan;
use master_replay::restart::replayed;
use master_state::state::State;
use master_waiting::fault::PlanFault;
use operation_log::log::OperationLog;
use protocol::down_cause::DownCause;
use std::alloc::{Allocator, Global};

// What the master of a new cell knows.
pub(crate) fn first_plan<A: Allocator + Clone>(
    alloc: Global,
    config: Config,
    server_count: u16,
    names: A,
) -> Result<Plan<A>, PlanFault>
    requires lease { config.lease_ms ≤ 3600000 }
    ensures { IfOk result (λ p. p ≡ started config server_count (record first_logged { epoch = 1 }) 0) }
{
    let mut state = State::new(alloc, names)?;
    state.begin_epoch(1);
    Plan::new(alloc, config, server_count, state, Moment(0))
}

// An opening that is planned.
#[derive(Drop)]
struct Opening<A: Allocator> {
    plan: Plan<A>,
    // whether the log has room for the epoch
    is_logged: bool,
}

// What a master knows that has read its log, with a new epoch to be logged.
fn opens<L: OperationLog, A: Allocator + Clone>(
    log: &mut L,
    alloc: Global,
    config: Config,
    server_count: u16,
    names: A,
    now: Moment,
) -> Result<Opening<A>, PlanFault>
    requires decided { L.under_way log.old ≡ [] }
    requires moment { now.0 ≤ moment_limit }
    requires skew { config.skew_ms ≤ 60000 }
    requires lease { config.lease_ms ≤ 3600000 }
    ensures plan { IfOk result (λ o. opening (started_master config server_count (L.disk log.old) now.0) ≡ doing (L.disk log.old) o.plan) }
    ensures logged { IfOk result (λ o. o.is_logged ≡ has_opened (started_master config server_count (L.disk log.old) now.0) (doing (L.disk log.old) o.plan)) }
    ensures disk { L.disk log.new ≡ L.disk log.old }
    ensures under_way { L.under_way log.new ≡ [] }
{
    let Ok(mut state) = replayed(log, alloc, names) else {
        return Err(PlanFault::Damaged);
    };
    let until = Moment(now.0 + config.skew_ms + config.lease_ms);
    state.restart(until, Shape::usual(&config));
    let epoch = state.epoch();
    if epoch >= MAX_COUNTER {
        return Err(PlanFault::Limit);
    }
    let mut plan = Plan::new(alloc, config, server_count, state, now)?;
    logs(log, &mut plan, Record::Epoch { epoch: epoch + 1 })?;
    let is_logged = plan.state().epoch() == epoch + 1;
    Ok(Opening { plan, is_logged })
}

/// Reads the log, and logs a new epoch: what the master then knows. The chunks of its files are put into `shown`. An error: it can't be up,
/// and why; the log is as far as it came.
pub(crate) fn opens_over<L: OperationLog, A: Allocator + Clone>(
    log: &mut L,
    alloc: Global,
    config: Config,
    server_count: u16,
    names: A,
    now: Moment,
    shown: &mut ShownFiles,
) -> Result<Plan<A>, DownCause>
    requires decided { L.under_way log.old ≡ [] }
    requires moment { now.0 ≤ moment_limit }
    requires skew { config.skew_ms ≤ 60000 }
    requires lease { config.lease_ms ≤ 3600000 }
    ensures up { IfOk result (λ p. Opens (down_over config server_count (L.disk log.old) []) now.0 no_output (standing true (L.disk log.new) (L.under_way log.new) config server_count p)) }
    ensures resting { IfOk result (λ p. IsResting (L.under_way log.new) config server_count p) }
    ensures down { OnErr result (Opens (down_over config server_count (L.disk log.old) []) now.0 down_output (down_over config server_count (L.disk log.new) (L.under_way log.new))) }
    ensures files { IfOk result (λ p. shown_in shown.new ≡ p.logged.table.files) }
    ensures files_of_error { OnErr result (shown_in shown.new ≡ shown_in shown.old) }
    ensures device { IfErr result (λ cause. cause ≡ causes.Device → L.failed log.old < L.failed log.new) }
    ensures room { IfErr result (λ cause. cause ≡ causes.NoRoom → HasNoRoom config server_count (L.disk log.old) now.0) }
{
    let before = log.failures();
    let Ok(opening) = opens(log, alloc, config, server_count, names, now) else {
        return Err(cause_since(log, before));
    };
    let is_logged = opening.is_logged;
    let mut plan = opening.plan;
    let Ok(files) = shown_of(alloc, plan.state().table()) else {
        return Err(DownCause::Memory);
    };
    if !makes(log, &mut plan) {
        return Err(cause_since(log, before));
    }
    if !is_logged {
        return Err(DownCause::NoRoom);
    }
    *shown = files;
    Ok(plan)
}
