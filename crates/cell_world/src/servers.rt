//! Steps of the chunkservers.

ghost use Rattle.std.specs.Prelude.{◌≡◌, ◌⊎◌, ◌≤◌, ◌<◌, suc, MatchOption, true, length};
ghost use Rattle.std.specs.Option.{option_copied};
ghost use Rattle.server_cell.specs.Inputs.{input_of};
ghost use Rattle.protocol.specs.Conforms.{ServerSteps};
ghost use Rattle.protocol.specs.Tables.{moment_limit, element_at};
ghost use Rattle.cell_world.specs.Batches.{message_named};
ghost use Rattle.cell_world.specs.Steps.{StepsAt, RestartsAt, RotsAt, IsUpAt};

use crate::numbered::place_of;
use crate::record::CellRecord;
use gfs_types::answer::Answer;
use gfs_types::ids::{Handle, Moment, ServerId};
use gfs_types::torn::Torn;
use messages::event::StepOut;
use protocol::step_outcome::Outcome;
use server_cell::server_slot::ServerSlot;

/// The place of a server's number.
pub(crate) fn server_place(servers: &Vec<ServerSlot>, id: ServerId) -> Option<usize>
    ensures { MatchOption result ((id.0 ≡ 0) ⊎ (length servers.now.items < id.0)) (λ place. (id.0 ≡ suc place) × (place < length servers.now.items)) }
{
    place_of(u64::from(id.0), servers.as_slice().len())
}

pub(crate) fn is_server_up(servers: &Vec<ServerSlot>, place: usize) -> bool
    requires { place < length servers.now.items }
    ensures { IsUpAt (λ s. s.up) servers.now.items place result }
{
    servers[place].is_up()
}

/// The chunkserver at a place takes a step on the message of a number, or on a tick. For want of memory it goes down.
pub(crate) fn server_steps(
    servers: &mut Vec<ServerSlot>,
    place: usize,
    kept: &mut CellRecord,
    given: Option<u64>,
    now: Moment,
) -> Option<Answer>
    requires moment { now.0 ≤ moment_limit }
    requires place { place < length servers.old.items }
    requires up { IsUpAt (λ s. s.up) servers.old.items place true }
    ensures { StepsAt (λ s out seen t. ServerSteps s now.0 (input_of (message_named kept.old.network.messages given)) out seen t) servers.old.items place kept.old result servers.new.items kept.new }
{
    if kept.reserve().is_err() {
        servers[place].stop();
        return None;
    }
    let Outcome {
        out,
        seen,
        cause: _,
    } = servers[place].step(now, kept.network.named(given));
    let StepOut { sent, answer, .. } = out;
    kept.takes(sent, seen);
    answer
}

/// The chunkserver at a place begins again.
pub(crate) fn server_restarts(servers: &mut Vec<ServerSlot>, place: usize, now: Moment) -> StepOut
    requires moment { now.0 ≤ moment_limit }
    requires place { place < length servers.old.items }
    ensures { RestartsAt servers.old.items place now.0 result servers.new.items }
{
    servers[place].restart(now)
}

/// A byte of a replica of the chunkserver at a place rots.
pub(crate) fn server_rots(
    servers: &mut Vec<ServerSlot>,
    index: usize,
    handle: Handle,
    place: u64,
    byte: u8,
)
    requires index { index < length servers.old.items }
    requires up { IsUpAt (λ s. s.up) servers.old.items index true }
    ensures { RotsAt servers.old.items index handle.0 place byte servers.new.items }
{
    servers[index].rot(handle, place, byte);
}

/// The disk of the chunkserver at a place is told to stop.
pub(crate) fn server_fuses(servers: &mut Vec<ServerSlot>, place: usize, calls: u64, torn: Torn)
    requires { place < length servers.old.items }
    ensures { servers.new.items ≡ servers.old.items }
{
    servers[place].fuse(calls, torn);
}
