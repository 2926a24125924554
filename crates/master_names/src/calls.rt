//! The calls that change the names, as they take effect.

ghost use Rattle.std.specs.Prelude.{◌≡◌, false, List, Bool, Some, None, OnOk};
ghost use Rattle.gfs_types.specs.declared.call.Call.TheVariants as call;
ghost use Rattle.log_records.specs.declared.record.Record.TheVariants as entries;
ghost use Rattle.protocol.specs.Logged.{LogDisk};
ghost use Rattle.protocol.specs.Sending.{client_id, file_id, moment_of};
ghost use Rattle.protocol.specs.MasterNames.{is_busy, told_shape};
ghost use Rattle.protocol.specs.MasterSnapshots.{settles_name, changes_names, begins_snapshot};
ghost use Rattle.master_plan.specs.Plans.{doing, known};
ghost use Rattle.master_names.specs.Doing.{answered, IsPlanned};

use crate::answers::{changes_names, settles_name};
use crate::begins::begins_snapshot;
use gfs_types::ids::{ClientId, MAX_COUNTER, Moment};
use gfs_types::lists::Text;
use gfs_types::shape::Shape;
use log_records::record::Record;
use master_plan::plan::Plan;
use master_state::names::path_of;
use master_waiting::fault::PlanFault;
use master_waiting::waiting::Pending;
use operation_log::log::OperationLog;
use std::alloc::Allocator;

pub(crate) fn makes_directory<L: OperationLog, A: Allocator + Clone>(
    log: &L,
    plan: &mut Plan<A>,
    client: ClientId,
    number: u64,
    path: &Text,
) -> Result<(), PlanFault>
    ensures { OnOk result (IsPlanned (λ d. changes_names d client.0 number (call.Mkdir path.now) (entries.Mkdir (client_id client.0) number path.now)) (L.disk log.now) plan.old plan.new) }
{
    let has_room = plan.has_room(path)?;
    let entry = Record::Mkdir {
        client,
        call: number,
        path: path.copy(plan.alloc())?,
    };
    changes_names(log, plan, client, number, has_room, entry)
}

// A Rmdir, which needs no room.
pub(crate) fn removes_directory<L: OperationLog, A: Allocator + Clone>(
    log: &L,
    plan: &mut Plan<A>,
    client: ClientId,
    number: u64,
    path: &Text,
) -> Result<(), PlanFault>
    ensures { OnOk result ((rest : List Bool) → settles_name (answered (L.disk log.now) plan.old rest) client.0 number (entries.Rmdir (client_id client.0) number path.now) None ≡ answered (L.disk log.now) plan.new rest) }
{
    let entry = Record::Rmdir {
        client,
        call: number,
        path: path.copy(plan.alloc())?,
    };
    settles_name(log, plan, client, number, entry, None)
}

pub(crate) fn creates<L: OperationLog, A: Allocator + Clone>(
    log: &L,
    plan: &mut Plan<A>,
    client: ClientId,
    number: u64,
    path: &Text,
    shape: Option<Shape>,
) -> Result<(), PlanFault>
    ensures { OnOk result (IsPlanned (λ d. changes_names d client.0 number (call.Create path.now shape) (entries.Create (client_id client.0) number (file_id d.master.logged.next_file) (told_shape d.master.config shape) path.now)) (L.disk log.now) plan.old plan.new) }
{
    let file = plan.state().table().next_file();
    if file.0 >= MAX_COUNTER {
        return Err(PlanFault::Limit);
    }
    let has_room = plan.has_room(path)?;
    let entry = Record::Create {
        client,
        call: number,
        file,
        shape: Some(Shape::usual(plan.config()).or(shape)),
        path: path.copy(plan.alloc())?,
    };
    changes_names(log, plan, client, number, has_room, entry)
}

pub(crate) fn deletes<L: OperationLog, A: Allocator + Clone>(
    log: &L,
    plan: &mut Plan<A>,
    client: ClientId,
    number: u64,
    path: &Text,
) -> Result<(), PlanFault>
    ensures { OnOk result (IsPlanned (λ d. changes_names d client.0 number (call.Delete path.now) (entries.Delete (client_id client.0) number (moment_of d.master.now) path.now)) (L.disk log.now) plan.old plan.new) }
{
    let moment = plan.now();
    let has_room = plan.has_room_to_hide(path, moment)?;
    let entry = Record::Delete {
        client,
        call: number,
        moment,
        path: path.copy(plan.alloc())?,
    };
    changes_names(log, plan, client, number, has_room, entry)
}

pub(crate) fn renames<L: OperationLog, A: Allocator + Clone>(
    log: &L,
    plan: &mut Plan<A>,
    client: ClientId,
    number: u64,
    from: &Text,
    to: &Text,
) -> Result<(), PlanFault>
    ensures { OnOk result (IsPlanned (λ d. changes_names d client.0 number (call.Rename from.now to.now) (entries.Rename (client_id client.0) number from.now to.now)) (L.disk log.now) plan.old plan.new) }
{
    let has_room = plan.has_room(to)?;
    let entry = Record::Rename {
        client,
        call: number,
        from: from.copy(plan.alloc())?,
        to: to.copy(plan.alloc())?,
    };
    changes_names(log, plan, client, number, has_room, entry)
}

// A Snapshot begins to wait. Damaged: a text is no path, which is refused before.
pub(crate) fn waits<A: Allocator + Clone>(
    plan: &mut Plan<A>,
    client: ClientId,
    number: u64,
    deadline: Moment,
    from: &Text,
    to: &Text,
) -> Result<(), PlanFault>
    requires { is_busy (known plan.old) (call.Snapshot from.now to.now) ≡ false }
    ensures { OnOk result ((disk : LogDisk) → begins_snapshot (doing disk plan.old) (record { client = client.0; number = number; deadline = deadline.0; from = from.now; to = to.now }) ≡ doing disk plan.new) }
{
    let from = path_of(plan.alloc(), from)?;
    let to = path_of(plan.alloc(), to)?;
    let snapshot = Pending::new(client, number, deadline, from, to);
    begins_snapshot(plan, snapshot)
}
