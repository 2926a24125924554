//! Why a Rmdir or a Snapshot is refused: the first cause in order (section 4.1).

ghost use Rattle.std.specs.Prelude.{◌≡◌, ◌||◌, nat_lt, length, IfOk};
ghost use Rattle.std.specs.List.{list_any};
ghost use Rattle.gfs_types.specs.declared.call.Call.TheVariants as call;
ghost use Rattle.gfs_types.specs.declared.config.Config.{Config};
ghost use Rattle.relaxed_file.specs.Names.{has_children, copied_entries};
ghost use Rattle.relaxed_file.specs.NameStep.{is_reserved};
ghost use Rattle.master_state.specs.Refusals.{refusal_by};

use gfs_types::lists::Text;
use gfs_types::no_memory::NoMemory;
use gfs_types::path::{MAX_PATH_LEN, Path};
use gfs_types::refusal::Refusal;
use master_state::refusals::{is_in_trash, parsed};
use master_state::state::State;
use namespace::node::NameNode;
use path_trie::parts::is_at_or_below;
use snapshot::copied::copied_names;
use std::alloc::Allocator;

/// Of a Rmdir: BadPath; Reserved; Busy; NotFound; NotDir; NotEmpty.
pub fn rmdir_refusal<A: Allocator + Clone>(
    state: &State<A>,
    path: &Text,
    is_busy: bool,
) -> Result<Option<Refusal>, NoMemory>
    ensures { IfOk result (λ r. (config : Config) → r ≡ refusal_by config state.now.names is_busy (call.Rmdir path.now)) }
{
    let path = match parsed(state.alloc(), path)? {
        Some(path) => path,
        None => return Ok(Some(Refusal::BadPath)),
    };
    if is_reserved(path.as_str()) {
        return Ok(Some(Refusal::Reserved));
    }
    if is_busy {
        return Ok(Some(Refusal::Busy));
    }
    if !state.is_taken(&path) {
        return Ok(Some(Refusal::NotFound));
    }
    if !state.is_dir(&path) {
        return Ok(Some(Refusal::NotDir));
    }
    if has_children(state, &path)? {
        return Ok(Some(Refusal::NotEmpty));
    }
    Ok(None)
}

/// Of a Snapshot: BadPath; Reserved; Inside; Busy; NotFound; NoParent; Exists; TooLong.
pub fn snapshot_refusal<A: Allocator + Clone>(
    state: &State<A>,
    from: &Text,
    to: &Text,
    is_busy: bool,
) -> Result<Option<Refusal>, NoMemory>
    ensures { IfOk result (λ r. (config : Config) → r ≡ refusal_by config state.now.names is_busy (call.Snapshot from.now to.now)) }
{
    let from = match parsed(state.alloc(), from)? {
        Some(path) => path,
        None => return Ok(Some(Refusal::BadPath)),
    };
    let to = match parsed(state.alloc(), to)? {
        Some(path) => path,
        None => return Ok(Some(Refusal::BadPath)),
    };
    if is_reserved(from.as_str()) {
        return Ok(Some(Refusal::Reserved));
    }
    if is_reserved(to.as_str()) {
        return Ok(Some(Refusal::Reserved));
    }
    if is_at_or_below(from.as_str(), to.as_str()) {
        return Ok(Some(Refusal::Inside));
    }
    if is_busy {
        return Ok(Some(Refusal::Busy));
    }
    if !state.is_taken(&from) {
        return Ok(Some(Refusal::NotFound));
    }
    if !state.has_parent(&to)? {
        return Ok(Some(Refusal::NoParent));
    }
    if state.is_taken(&to) {
        return Ok(Some(Refusal::Exists));
    }
    if is_too_long(state, &from, &to)? {
        return Ok(Some(Refusal::TooLong));
    }
    Ok(None)
}

// Whether something stands right below a directory.
#[tactic(auto, using(crate::proofs::Listed::any_child))]
fn has_children<A: Allocator + Clone>(state: &State<A>, path: &Path) -> Result<bool, NoMemory>
    ensures { IfOk result (λ b. b ≡ has_children state.now.names path.now) }
{
    let children = state.names().children(state.alloc(), path)?;
    Ok(children.len() != 0)
}

// Whether a snapshot would make a path of too many bytes.
fn is_too_long<A: Allocator + Clone>(
    state: &State<A>,
    from: &Path,
    to: &Path,
) -> Result<bool, NoMemory>
    ensures { IfOk result (λ b. b ≡ list_any (λ e. nat_lt 4096 (length e.0)) (copied_entries state.now.names from.now to.now)) }
{
    let names = copied_names(state.alloc(), state.names(), from, to)?;
    Ok(has_long(&names))
}

fn has_long(names: &[(Text, NameNode)]) -> bool
    ensures { result ≡ list_any (λ e. nat_lt 4096 (length e.0)) names.now }
{
    names
        .iter()
        .any(|name| name.0.as_str().len() > MAX_PATH_LEN)
}

// Whether a path is the root's, or that of the directory of deleted files, or below that.
fn is_reserved(path: &str) -> bool
    ensures { result ≡ is_reserved path.now }
{
    path == "/" || is_in_trash(path)
}
