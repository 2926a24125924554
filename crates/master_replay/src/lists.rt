//! The names right below a directory (section 4.1).

ghost use Rattle.std.specs.Prelude.{◌≡◌, map, IfOk};
ghost use Rattle.gfs_types.specs.declared.call.Call.TheVariants as call;
ghost use Rattle.gfs_types.specs.declared.config.Config.{Config};
ghost use Rattle.gfs_types.specs.declared.answer.Answer.TheVariants as answer;
ghost use Rattle.messages.specs.declared.message.NameReply.TheVariants.{Answered};
ghost use Rattle.relaxed_file.specs.Names.{listing};
ghost use Rattle.relaxed_file.specs.NameStep.{outcome_by};
ghost use Rattle.protocol.specs.MasterNames.{reply_by};
ghost use Rattle.master_state.specs.Refusals.{refusal_by};
ghost use Rattle.master_replay.specs.Listing.{named};

use gfs_types::answer::Answer;
use gfs_types::lists::{NameList, Text};
use gfs_types::no_memory::NoMemory;
use gfs_types::path::Path;
use gfs_types::refusal::Refusal;
use master_state::refusals::{is_directory, parsed};
use master_state::state::State;
use messages::message::NameReply;
use namespace::node::NameNode;
use path_trie::child::Child;
use std::alloc::{Allocator, Global};

/// The reply to a List: the names right below a directory, in order, or the refusal. It is told whether a pending snapshot holds a
/// lock that conflicts.
pub fn list<A: Allocator + Clone>(
    state: &State<A>,
    path: &Text,
    is_busy: bool,
) -> Result<NameReply, NoMemory>
    ensures { IfOk result (λ r. (config : Config) → r ≡ reply_by state.now.table (outcome_by state.now.names (call.List path.now) (refusal_by config state.now.names is_busy (call.List path.now)))) }
{
    let path = match parsed(state.alloc(), path)? {
        Some(path) => path,
        None => return Ok(refused(Refusal::BadPath)),
    };
    if is_busy {
        return Ok(refused(Refusal::Busy));
    }
    let Some(node) = state.node(&path) else {
        return Ok(refused(Refusal::NotFound));
    };
    if !is_directory(node) {
        return Ok(refused(Refusal::NotDir));
    }
    Ok(NameReply::Answered(Answer::Names(names_below(state, &path)?)))
}

/// The names right below a directory, with a slash after a directory's, in the order of their bytes.
pub fn names_below<A: Allocator + Clone>(
    state: &State<A>,
    directory: &Path,
) -> Result<NameList, NoMemory>
    ensures { IfOk result (λ l. l ≡ listing state.now.names directory.now) }
{
    let alloc = state.alloc();
    let children = state.names().children(alloc, directory)?;
    listed_names(alloc, children)
}

fn listed_names(alloc: Global, names: Vec<Child<'_, NameNode>>) -> Result<NameList, NoMemory>
    ensures { IfOk result (λ l. l ≡ map named names.entry.items) }
{
    let mut listed = NameList::empty(alloc);
    for name in names {
        listed.push(listed_name(alloc, name.name(), name.value())?)?;
    }
    Ok(listed)
}

// A name as it is listed: a directory's has a slash after it.
fn listed_name(alloc: Global, name: &str, node: &NameNode) -> Result<Text, NoMemory>
    ensures { IfOk result (λ t. t ≡ named (name.now, node.now)) }
{
    let mut text = String::from_str(alloc, name)?;
    if is_directory(node) {
        text.push_str("/")?;
    }
    Ok(Text::new(text))
}

fn refused(refusal: Refusal) -> NameReply
    ensures { result ≡ Answered (answer.Refused refusal) }
{
    NameReply::Answered(Answer::Refused(refusal))
}
