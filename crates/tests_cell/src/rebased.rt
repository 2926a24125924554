//! A cell that begins again without its messages.

use crate::outcome::small_cell;
use cell_world::rebase_fault::RebaseFault;
use gfs_types::ids::{Moment, Node, ServerId};
use messages::event::Event;
use script::script_fault::ScriptFault;
use shell::making::new_cell;
use shell::world::SimulatedWorld;
use std::alloc::Global;

/// Whether a cell keeps its messages at a moment that is too far back, and else begins again without one.
fn begins_again(alloc: Global) -> Result<bool, ScriptFault> {
    let SimulatedWorld { world } = new_cell(alloc, alloc, &small_cell())?;
    let mut world = world;
    let tick = Event::Tick {
        node: Node::Server(ServerId(1)),
        now: Moment(5_000),
    };
    drop(world.step(tick));
    let sent = world.message_count();
    let (world, is_refused) = match world.rebase(Moment(2_999)) {
        Err((world, fault)) => (world, fault == RebaseFault::Clock),
        Ok(world) => (world, false),
    };
    let is_kept = is_refused && sent > 0 && world.message_count() == sent;
    let (world, is_done) = match world.rebase(Moment(3_000)) {
        Ok(world) => (world, true),
        Err((world, _)) => (world, false),
    };
    let is_empty = is_done && world.message_count() == 0;
    drop(world);
    Ok(is_kept && is_empty)
}

#[test]
fn a_cell_begins_again_without_its_messages(rt: HostRuntime) {
    assert!(rt; matches!(begins_again(rt.alloc()), Ok(true)));
}
