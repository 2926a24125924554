//! Why a name call is refused: the first cause in order (section 4.1).

ghost use Rattle.std.specs.Prelude.{◌≡◌, ◌∷◌, Some, IfOk, IfSome, is_some};
ghost use Rattle.gfs_types.specs.Paths.{is_path, parent};
ghost use Rattle.gfs_types.specs.Shapes.{may_have};
ghost use Rattle.gfs_types.specs.declared.config.Config.{Config};
ghost use Rattle.gfs_types.specs.declared.refusal.Refusal.TheVariants.{Reserved, Busy};
ghost use Rattle.gfs_types.specs.declared.call.Call.TheVariants as call;
ghost use Rattle.relaxed_file.specs.Names.{is_dir, is_dir_node, is_taken};
ghost use Rattle.relaxed_file.specs.NameStep.{is_in_trash, first_refusal, name_tests};
ghost use Rattle.master_state.specs.Refusals.{refusal_by};

use crate::state::State;
use gfs_types::config::Config;
use gfs_types::lists::Text;
use gfs_types::no_memory::NoMemory;
use gfs_types::path::{Path, PathFault};
use gfs_types::refusal::Refusal;
use gfs_types::shape::Shape;
use namespace::name_kind::NameKind;
use namespace::node::NameNode;
use path_trie::parts;
use std::alloc::{Allocator, Global};

impl<A: Allocator + Clone> State<A> {
    /// Of a Mkdir: BadPath; Reserved; Busy; NoParent; Exists.
    pub fn mkdir_refusal(&self, path: &Text, is_busy: bool) -> Result<Option<Refusal>, NoMemory>
        ensures { IfOk result (λ r. (config : Config) → r ≡ refusal_by config self.now.names is_busy (call.Mkdir path.now)) }
    {
        match parsed(self.alloc, path)? {
            Some(path) => self.new_name_refusal(&path, is_busy),
            None => Ok(Some(Refusal::BadPath)),
        }
    }

    /// Of a Create: BadPath; BadSize; then as of a Mkdir.
    pub fn create_refusal(
        &self,
        config: &Config,
        path: &Text,
        shape: Option<Shape>,
        is_busy: bool,
    ) -> Result<Option<Refusal>, NoMemory>
        ensures { IfOk result (λ r. r ≡ refusal_by config.now self.now.names is_busy (call.Create path.now shape)) }
    {
        let path = match parsed(self.alloc, path)? {
            Some(path) => path,
            None => return Ok(Some(Refusal::BadPath)),
        };
        if !may_have(config, shape) {
            return Ok(Some(Refusal::BadSize));
        }
        self.new_name_refusal(&path, is_busy)
    }

    // Of a path that is to be a new name: Reserved; Busy; NoParent; Exists.
    fn new_name_refusal(&self, path: &Path, is_busy: bool) -> Result<Option<Refusal>, NoMemory>
        ensures { IfOk result (λ r. r ≡ first_refusal ((is_in_trash path.now, Reserved) ∷ (is_busy, Busy) ∷ name_tests self.now.names (call.Mkdir path.now))) }
    {
        if is_in_trash(path.as_str()) {
            return Ok(Some(Refusal::Reserved));
        }
        if is_busy {
            return Ok(Some(Refusal::Busy));
        }
        if !self.has_parent(path)? {
            return Ok(Some(Refusal::NoParent));
        }
        if self.is_taken(path) {
            return Ok(Some(Refusal::Exists));
        }
        Ok(None)
    }

    /// Of a Delete: BadPath; Reserved; Busy; NotFound; NotFile.
    pub fn delete_refusal(&self, path: &Text, is_busy: bool) -> Result<Option<Refusal>, NoMemory>
        ensures { IfOk result (λ r. (config : Config) → r ≡ refusal_by config self.now.names is_busy (call.Delete path.now)) }
    {
        let path = match parsed(self.alloc, path)? {
            Some(path) => path,
            None => return Ok(Some(Refusal::BadPath)),
        };
        if is_in_trash(path.as_str()) {
            return Ok(Some(Refusal::Reserved));
        }
        if is_busy {
            return Ok(Some(Refusal::Busy));
        }
        if !self.is_taken(&path) {
            return Ok(Some(Refusal::NotFound));
        }
        if self.is_dir(&path) {
            return Ok(Some(Refusal::NotFile));
        }
        Ok(None)
    }

    /// Of a Rename: BadPath; Reserved; Busy; NotFound; NotFile; NoParent; Exists.
    pub fn rename_refusal(
        &self,
        from: &Text,
        to: &Text,
        is_busy: bool,
    ) -> Result<Option<Refusal>, NoMemory>
        ensures { IfOk result (λ r. (config : Config) → r ≡ refusal_by config self.now.names is_busy (call.Rename from.now to.now)) }
    {
        let from = match parsed(self.alloc, from)? {
            Some(path) => path,
            None => return Ok(Some(Refusal::BadPath)),
        };
        let to = match parsed(self.alloc, to)? {
            Some(path) => path,
            None => return Ok(Some(Refusal::BadPath)),
        };
        if is_in_trash(to.as_str()) {
            return Ok(Some(Refusal::Reserved));
        }
        if is_busy {
            return Ok(Some(Refusal::Busy));
        }
        if !self.is_taken(&from) {
            return Ok(Some(Refusal::NotFound));
        }
        if self.is_dir(&from) {
            return Ok(Some(Refusal::NotFile));
        }
        if !self.has_parent(&to)? {
            return Ok(Some(Refusal::NoParent));
        }
        if self.is_taken(&to) {
            return Ok(Some(Refusal::Exists));
        }
        Ok(None)
    }

    /// Of an Open: BadPath; Busy; NotFound; NotFile.
    pub fn open_refusal(&self, path: &Text, is_busy: bool) -> Result<Option<Refusal>, NoMemory>
        ensures { IfOk result (λ r. (config : Config) → r ≡ refusal_by config self.now.names is_busy (call.Open path.now)) }
    {
        let path = match parsed(self.alloc, path)? {
            Some(path) => path,
            None => return Ok(Some(Refusal::BadPath)),
        };
        if is_busy {
            return Ok(Some(Refusal::Busy));
        }
        if !self.is_taken(&path) {
            return Ok(Some(Refusal::NotFound));
        }
        if self.is_dir(&path) {
            return Ok(Some(Refusal::NotFile));
        }
        Ok(None)
    }

    /// Of a List: BadPath; Busy; NotFound; NotDir.
    pub fn list_refusal(&self, path: &Text, is_busy: bool) -> Result<Option<Refusal>, NoMemory>
        ensures { IfOk result (λ r. (config : Config) → r ≡ refusal_by config self.now.names is_busy (call.List path.now)) }
    {
        let path = match parsed(self.alloc, path)? {
            Some(path) => path,
            None => return Ok(Some(Refusal::BadPath)),
        };
        if is_busy {
            return Ok(Some(Refusal::Busy));
        }
        if !self.is_taken(&path) {
            return Ok(Some(Refusal::NotFound));
        }
        if !self.is_dir(&path) {
            return Ok(Some(Refusal::NotDir));
        }
        Ok(None)
    }

    /// Whether something stands at a path.
    pub fn is_taken(&self, path: &Path) -> bool
        ensures { result ≡ is_taken self.now.names path.now }
    {
        self.names.get(path).is_some()
    }

    /// Whether a directory stands at a path.
    pub fn is_dir(&self, path: &Path) -> bool
        ensures { result ≡ is_dir self.now.names path.now }
    {
        match self.names.get(path) {
            Some(node) => is_directory(node),
            None => false,
        }
    }

    /// Whether the parent of a path is a directory.
    pub fn has_parent(&self, path: &Path) -> Result<bool, NoMemory>
        ensures { IfOk result (λ is_there. is_there ≡ is_dir self.now.names (parent path.now)) }
    {
        let Ok(parent) = Path::parse(self.alloc, parts::parent(path.as_str())) else {
            return Err(NoMemory);
        };
        Ok(self.is_dir(&parent))
    }
}

/// Whether it is a directory.
pub fn is_directory(node: &NameNode) -> bool
    ensures { result ≡ is_dir_node (Some node.now) }
{
    match node.kind() {
        NameKind::Dir => true,
        NameKind::File(_) => false,
    }
}

/// The path that a text is; None where it is none.
pub fn parsed(alloc: Global, text: &Text) -> Result<Option<Path>, NoMemory>
    ensures path { IfOk result (λ p. IfSome p (λ x. x ≡ text.now)) }
    ensures grammar { IfOk result (λ p. is_some p ≡ is_path text.now) }
{
    match Path::parse(alloc, text.as_str()) {
        Ok(path) => Ok(Some(path)),
        Err(PathFault::BadPath) => Ok(None),
        Err(PathFault::NoMemory) => Err(NoMemory),
    }
}

// Whether a file may be asked for so.
fn may_have(config: &Config, shape: Option<Shape>) -> bool
    ensures { result ≡ may_have config.now shape }
{
    Shape::usual(config).or(shape).fits(config)
}

/// Whether a path is that of the directory of deleted files, or below it.
pub fn is_in_trash(path: &str) -> bool
    ensures { result ≡ is_in_trash path.now }
{
    match path.strip_prefix("/.gone") {
        None => false,
        Some(rest) => rest.is_empty() || rest.starts_with('/'),
    }
}
