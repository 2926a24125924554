//! The replay of name records (section 4.1).

ghost use Rattle.std.specs.Prelude.{◌≡◌, Some, None, IfOk, OnOk, OnErr, IsErrOf, IsTrue, IsFalse};
ghost use Rattle.std.specs.FinMap as map;
ghost use Rattle.gfs_types.specs.Paths.{is_path};
ghost use Rattle.log_records.specs.declared.record.Record.TheVariants as log;
ghost use Rattle.relaxed_file.specs.Names.{Dir, File, node_at};
ghost use Rattle.relaxed_file.specs.NameStep.{with_node, hidden};
ghost use Rattle.protocol.specs.Logged.{after_record};
ghost use Rattle.namespace.specs.NameKinds.{node_of};
ghost use Rattle.master_state.specs.Follows.{follows};
ghost use Rattle.master_state.specs.declared.fault.ReplayFault.TheVariants.{Damaged};

use crate::fault::ReplayFault;
use crate::hidden::hidden_name;
use crate::state::State;
use gfs_types::ids::{ClientId, Moment};
use gfs_types::lists::Text;
use gfs_types::no_memory::NoMemory;
use gfs_types::path::{Path, PathFault};
use namespace::name_kind::NameKind;
use namespace::node::NameNode;
use std::alloc::{Allocator, Global};

impl<A: Allocator + Clone> State<A> {
    /// The replay of a Mkdir.
    pub fn mkdir(&mut self, client: ClientId, call: u64, path: &Text) -> Result<(), ReplayFault>
        ensures ok { OnOk result (self.new ≡ after_record self.old (log.Mkdir client call path.now)) }
        ensures follows { OnOk result (IsTrue (follows self.old (log.Mkdir client call path.now))) }
        ensures damaged { IsErrOf result Damaged → IsFalse (follows self.old (log.Mkdir client call path.now)) }
    {
        let path = path_of(self.alloc, path)?;
        self.put_name(&path, NameNode::dir())?;
        self.keep(client, call, None)?;
        Ok(())
    }

    /// The replay of a Rmdir.
    pub fn rmdir(&mut self, client: ClientId, call: u64, path: &Text) -> Result<(), ReplayFault>
        ensures ok { OnOk result (self.new ≡ after_record self.old (log.Rmdir client call path.now)) }
        ensures follows { OnOk result (IsTrue (follows self.old (log.Rmdir client call path.now))) }
        ensures damaged { IsErrOf result Damaged → IsFalse (follows self.old (log.Rmdir client call path.now)) }
    {
        let path = path_of(self.alloc, path)?;
        self.names.remove(&path);
        self.keep(client, call, None)?;
        Ok(())
    }

    /// The replay of a Rename.
    pub fn rename(
        &mut self,
        client: ClientId,
        call: u64,
        from: &Text,
        to: &Text,
    ) -> Result<(), ReplayFault>
        ensures ok { OnOk result (self.new ≡ after_record self.old (log.Rename client call from.now to.now)) }
        ensures follows { OnOk result (IsTrue (follows self.old (log.Rename client call from.now to.now))) }
        ensures damaged { IsErrOf result Damaged → IsFalse (follows self.old (log.Rename client call from.now to.now)) }
    {
        let from = path_of(self.alloc, from)?;
        let to = path_of(self.alloc, to)?;
        self.move_name(&from, &to)?;
        self.keep(client, call, None)?;
        Ok(())
    }

    /// The replay of a Delete.
    pub fn delete(
        &mut self,
        client: ClientId,
        call: u64,
        moment: Moment,
        path: &Text,
    ) -> Result<(), ReplayFault>
        ensures ok { OnOk result (self.new ≡ after_record self.old (log.Delete client call moment path.now)) }
        ensures follows { OnOk result (IsTrue (follows self.old (log.Delete client call moment path.now))) }
        ensures damaged { IsErrOf result Damaged → IsFalse (follows self.old (log.Delete client call moment path.now)) }
    {
        let path = path_of(self.alloc, path)?;
        self.hide(&path, moment)?;
        self.keep(client, call, None)?;
        Ok(())
    }

    /// The replay of a DirItem.
    pub fn put_dir_item(&mut self, path: &Text) -> Result<(), ReplayFault>
        ensures ok { OnOk result (self.new ≡ after_record self.old (log.DirItem path.now)) }
        ensures follows { OnOk result (IsTrue (follows self.old (log.DirItem path.now))) }
        ensures damaged { IsErrOf result Damaged → IsFalse (follows self.old (log.DirItem path.now)) }
    {
        let path = path_of(self.alloc, path)?;
        self.put_name(&path, NameNode::dir())?;
        Ok(())
    }

    /// A name, in place of what stands there.
    pub fn put_name(&mut self, path: &Path, node: NameNode) -> Result<(), NoMemory>
        ensures ok { OnOk result (self.new ≡ record self.old { names = map.insert self.old.names path.now node }) }
        ensures err { OnErr result (self.new ≡ self.old) }
    {
        match self.names.insert(path, node) {
            Ok(()) => Ok(()),
            Err(_) => Err(NoMemory),
        }
    }

    /// A name goes. Takes no memory.
    pub fn remove_name(&mut self, path: &Path)
        ensures { self.new ≡ record self.old { names = map.remove self.old.names path.now } }
    {
        self.names.remove(path);
    }

    // What stands at a path stands at another one then.
    fn move_name(&mut self, from: &Path, to: &Path) -> Result<(), NoMemory>
        ensures { OnOk result (self.new ≡ record self.old { names = with_node (map.remove self.old.names from.now) to.now (node_at self.old.names from.now) }) }
    {
        match self.names.remove(from) {
            Some(node) => self.put_name(to, node),
            None => Ok(()),
        }
    }

    // A file at a path moves to its hidden name.
    fn hide(&mut self, path: &Path, moment: Moment) -> Result<(), NoMemory>
        ensures { OnOk result (self.new ≡ record self.old { names = hidden self.old.names path.now moment.0 (node_at self.old.names path.now) }) }
    {
        let Some(node) = self.names.get(path) else {
            return Ok(());
        };
        let NameKind::File(id) = node.kind() else {
            return Ok(());
        };
        let text = hidden_name(self.alloc, moment, id)?;
        let Ok(hidden) = Path::parse(self.alloc, &text) else {
            return Err(NoMemory);
        };
        self.names.remove(path);
        self.put_name(&hidden, NameNode::file(id))
    }
}

/// The path that a record names.
pub fn path_of(alloc: Global, text: &Text) -> Result<Path, ReplayFault>
    ensures path { IfOk result (λ p. p ≡ text.now) }
    ensures grammar { IfOk result (λ _. IsTrue (is_path text.now)) }
    ensures damaged { IsErrOf result Damaged → IsFalse (is_path text.now) }
{
    match Path::parse(alloc, text.as_str()) {
        Ok(path) => Ok(path),
        Err(PathFault::BadPath) => Err(ReplayFault::Damaged),
        Err(PathFault::NoMemory) => Err(ReplayFault::NoMemory),
    }
}
