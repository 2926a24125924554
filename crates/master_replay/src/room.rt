//! Whether the names have room for all that a snapshot copies (sections 3.4 and 4.1).

ghost use Rattle.std.specs.Prelude.{◌≡◌, None};
ghost use Rattle.relaxed_file.specs.Names.{node_at};
ghost use Rattle.master_replay.specs.Room.{taken_back};

use gfs_types::no_memory::NoMemory;
use gfs_types::path::Path;
use master_state::fault::ReplayFault;
use master_state::state::State;
use namespace::node::NameNode;
use std::alloc::{AllocFailed, Allocator};

/// Whether all names of a copy find room: they are put there and taken out again. Changes nothing. Damaged: one of them would be
/// no path.
pub fn has_room_to_copy<A: Allocator + Clone>(
    state: &mut State<A>,
    from: &Path,
    to: &Path,
) -> Result<bool, ReplayFault>
    ensures { state.new ≡ state.old }
{
    let plan = state.plan_snapshot(from, to)?;
    Ok(has_room_for_all(state, plan.copies())?)
}

fn has_room_for_all<A: Allocator + Clone>(
    state: &mut State<A>,
    copies: &[(Path, NameNode)],
) -> Result<bool, NoMemory>
    ensures { state.new ≡ state.old }
{
    let mut added = Vec::new(state.alloc());
    let found = adds_all(state, copies, &mut added);
    takes_back(state, added);
    found
}

// Adds the names one after another, but for those that are there. False: one found no room.
fn adds_all<A: Allocator + Clone>(
    state: &mut State<A>,
    copies: &[(Path, NameNode)],
    added: &mut Vec<Path>,
) -> Result<bool, NoMemory>
    ensures { record state.new { names = taken_back state.new.names added.new.items } ≡ record state.old { names = taken_back state.old.names added.old.items } }
{
    for copy in copies {
        let path = copy.0.copy(state.alloc())?;
        if !adds(state, path, added)? {
            return Ok(false);
        }
    }
    Ok(true)
}

fn adds<A: Allocator + Clone>(
    state: &mut State<A>,
    path: Path,
    added: &mut Vec<Path>,
) -> Result<bool, NoMemory>
    ensures { record state.new { names = taken_back state.new.names added.new.items } ≡ record state.old { names = taken_back state.old.names added.old.items } }
{
    if state.node(&path).is_some() {
        return Ok(true);
    }
    adds_absent(state, path, added)
}

#[tactic(auto, using(crate::proofs::Trial::added_last, crate::proofs::Trial::put_and_taken))]
fn adds_absent<A: Allocator + Clone>(
    state: &mut State<A>,
    path: Path,
    added: &mut Vec<Path>,
) -> Result<bool, NoMemory>
    requires { node_at state.old.names path ≡ None }
    ensures { record state.new { names = taken_back state.new.names added.new.items } ≡ record state.old { names = taken_back state.old.names added.old.items } }
{
    if state.put_name(&path, NameNode::dir()).is_err() {
        return Ok(false);
    }
    match added.push(path) {
        Ok(()) => Ok(true),
        Err(AllocFailed { value }) => {
            state.remove_name(&value);
            Err(NoMemory)
        }
    }
}

// Takes out what was added, the last first. Takes no memory.
#[tactic(auto, using(crate::proofs::Trial::taken_last))]
fn takes_back<A: Allocator + Clone>(state: &mut State<A>, mut added: Vec<Path>)
    ensures { state.new ≡ record state.old { names = taken_back state.old.names added.items } }
{
    while let Some(path) = added.pop() {
        state.remove_name(&path);
    }
}
