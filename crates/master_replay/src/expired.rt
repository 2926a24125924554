//! The replay of an Expired (section 4.4).

ghost use Rattle.std.specs.Prelude.{◌≡◌, Some, None, find, IfOk, OnOk, IsErrOf, IsTrue, IsFalse};
ghost use Rattle.std.specs.Option.{option_map};
ghost use Rattle.std.specs.FinMap as map;
ghost use Rattle.log_records.specs.declared.record.Record.TheVariants as log;
ghost use Rattle.protocol.specs.Logged.{after_record, without_file, is_this_file};
ghost use Rattle.master_state.specs.Follows.{follows, name_of_file, is_name_path};
ghost use Rattle.master_state.specs.declared.fault.ReplayFault.TheVariants.{Damaged};

use gfs_types::ids::FileId;
use gfs_types::lists::Text;
use gfs_types::no_memory::NoMemory;
use master_state::fault::ReplayFault;
use master_state::names::path_of;
use master_state::state::State;
use namespace::name_kind::NameKind;
use namespace::node::NameNode;
use path_trie::child::Child;
use std::alloc::{Allocator, Global};

/// The replay of an Expired: the copies for the file are given up, and its name goes with it. Damaged: a file owns the chunk of such
/// a copy, or the name is no path.
pub fn expire<A: Allocator + Clone>(state: &mut State<A>, file: FileId) -> Result<(), ReplayFault>
    ensures ok { OnOk result (state.new ≡ after_record state.old (log.Expired file)) }
    ensures follows { OnOk result (IsTrue (follows state.old (log.Expired file))) }
    ensures damaged { IsErrOf result Damaged → IsFalse (follows state.old (log.Expired file)) }
{
    let copies = state.copies_for_file(file)?;
    state.give_up_copies(&copies)?;
    remove_name(state, file)?;
    state.drop_file(file);
    Ok(())
}

// The first name of the file goes.
fn remove_name<A: Allocator + Clone>(state: &mut State<A>, file: FileId) -> Result<(), ReplayFault>
    ensures ok { OnOk result (state.new ≡ record state.old { names = without_file state.old.names file.0 }) }
    ensures follows { OnOk result (IsTrue (is_name_path (name_of_file state.old file.0))) }
    ensures damaged { IsErrOf result Damaged → IsFalse (is_name_path (name_of_file state.old file.0)) }
{
    let Some(name) = name_of(state, file)? else {
        return Ok(());
    };
    let path = path_of(state.alloc(), &name)?;
    state.remove_name(&path);
    Ok(())
}

// The first name of a file, in the order of the paths.
fn name_of<A: Allocator + Clone>(state: &State<A>, file: FileId) -> Result<Option<Text>, NoMemory>
    ensures { IfOk result (λ name. name ≡ option_map (λ e. e.0) (name_of_file state.now file.0)) }
{
    let names = state.names().entries(state.alloc())?;
    Ok(first_of_file(names, file))
}

fn first_of_file(names: Vec<Child<'_, NameNode>>, file: FileId) -> Option<Text>
    ensures { result ≡ option_map (λ e. e.0) (find (λ e. is_this_file file.0 e.1) names.entry.items) }
{
    for name in names {
        if is_this_file(name.value(), file) {
            return Some(name.into_name());
        }
    }
    None
}

fn is_this_file(node: &NameNode, file: FileId) -> bool
    ensures { result ≡ is_this_file file.0 node.now }
{
    match node.kind() {
        NameKind::Dir => false,
        NameKind::File(id) => id == file,
    }
}
