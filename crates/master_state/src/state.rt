//! The state that the log keeps.

ghost use Rattle.std.specs.Prelude.{◌≡◌, IfOk, OnOk, OnErr};
ghost use Rattle.std.specs.Option.{option_copied};
ghost use Rattle.std.specs.FinMap as map;
ghost use Rattle.log_records.specs.declared.record.Record.TheVariants as log;
ghost use Rattle.protocol.specs.Logged.{first_logged, after_record, with_answer};
ghost use Rattle.relaxed_file.specs.Names.{Dir, node_at};
ghost use Rattle.master_state.specs.Follows.{table_of};

use crate::kept::{CopyRow, KeptCall};
use chunk_table::table::Table;
use gfs_types::ids::{ClientId, Handle};
use gfs_types::no_memory::NoMemory;
use gfs_types::path::Path;
use gfs_types::refusal::Refusal;
use namespace::node::{NameNode, Namespace};
use ordered_map::OrderedMap;
use path_trie::trie::Trie;
use std::alloc::{Allocator, Global};
use std::marker::Model;

/// The names, files and chunks, counters, clients' last calls and copies under way: what the log's replay comes to. The names
/// lie in `A`. Contracts see it as `Logged`.
pub struct State<A: Allocator> {
    pub(crate) alloc: Global,
    pub(crate) names: Namespace<A>,
    pub(crate) table: Table,
    pub(crate) epoch: u64,
    pub(crate) kept: OrderedMap<KeptCall>,
    pub(crate) copies: OrderedMap<CopyRow>,
}

// Stands here, once, so that no function that lets one go, here or above, takes its fields apart.
impl<A: Allocator> Drop for State<A> {
    fn drop(self) {
        let Self {
            alloc: _,
            names: _names,
            table: _table,
            epoch: _,
            kept: _kept,
            copies: _copies,
        } = self;
    }
}

impl<A: Allocator> Model for State<A> {
    ghost use Rattle.std.specs.Coded.{codes, coded_ℕ, coded_list};
    ghost use Rattle.std.specs.FinMap as map;
    ghost use Rattle.protocol.specs.Logged.{Logged};

    ghost Value = { Logged };

    ghost coded = { Prim.hlevel (codes, map.code, coded_list, coded_ℕ) };

    ghost view = { λ s. record {
      names = s.names;
      table = s.table.table;
      next_file = s.table.next_file;
      next_handle = s.table.next_handle;
      epoch = s.epoch;
      kept = s.kept;
      copies = s.copies;
    } };
}

impl<A: Allocator + Clone> State<A> {
    /// The state of a new cell, which has the names `/` and `/.gone`.
    pub fn new(global: Global, alloc: A) -> Result<Self, NoMemory>
        ensures { IfOk result (λ s. s ≡ first_logged) }
    {
        let root = path(global, "/")?;
        let trash = path(global, "/.gone")?;
        let mut names = Trie::new(alloc)?;
        put_directory(&mut names, &trash)?;
        put_directory(&mut names, &root)?;
        Ok(State {
            alloc: global,
            names,
            table: Table::new(global),
            epoch: 0,
            kept: OrderedMap::new(global),
            copies: OrderedMap::new(global),
        })
    }

    /// All names go, so that a replay finds the room that they took. What else is kept stays. Takes no memory.
    pub fn forget_names(&mut self, alloc: A)
        ensures { record self.new { names = map.empty } ≡ record self.old { names = map.empty } }
    {
        if let Ok(none) = Trie::new(alloc) {
            self.names = none;
        }
    }

    /// What stands at a path.
    pub fn node(&self, path: &Path) -> Option<&NameNode>
        ensures { option_copied result ≡ node_at self.now.names path.now }
    {
        self.names.get(path)
    }

    /// A client's last changing name call.
    pub fn kept_call(&self, client: ClientId) -> Option<&KeptCall>
        ensures { option_copied result ≡ map.get self.now.kept client.0 }
    {
        self.kept.get(client.0)
    }

    /// Each client's last changing name call.
    pub fn kept_calls(&self) -> &OrderedMap<KeptCall>
        ensures { result.now ≡ self.now.kept }
    {
        &self.kept
    }

    /// The copy that is under way under a handle.
    pub fn copy_under(&self, handle: Handle) -> Option<&CopyRow>
        ensures { option_copied result ≡ map.get self.now.copies handle.0 }
    {
        self.copies.get(handle.0)
    }

    /// The names, and what stands at each.
    pub fn names(&self) -> &Namespace<A>
        ensures { result.now ≡ self.now.names }
    {
        &self.names
    }

    /// The allocator of what isn't a name.
    pub fn alloc(&self) -> Global {
        self.alloc
    }

    /// The files and chunks, with the counters of both.
    pub fn table(&self) -> &Table
        ensures { result.now ≡ table_of self.now }
    {
        &self.table
    }

    /// How often the master was opened.
    pub fn epoch(&self) -> u64
        ensures { result ≡ self.now.epoch }
    {
        self.epoch
    }

    /// The replay of an Epoch. Takes no memory.
    pub fn begin_epoch(&mut self, epoch: u64)
        ensures { self.new ≡ after_record self.old (log.Epoch epoch) }
    {
        self.epoch = epoch;
    }

    /// The replay of a Refused.
    pub fn keep_refused(
        &mut self,
        client: ClientId,
        call: u64,
        refusal: Refusal,
    ) -> Result<(), NoMemory>
        ensures ok { OnOk result (self.new ≡ after_record self.old (log.Refused client call refusal)) }
        ensures err { OnErr result (self.new ≡ self.old) }
    {
        self.keep(client, call, Some(refusal))
    }

    /// The replay of a ClientItem.
    pub fn keep(
        &mut self,
        client: ClientId,
        call: u64,
        refusal: Option<Refusal>,
    ) -> Result<(), NoMemory>
        ensures ok { OnOk result (self.new ≡ with_answer self.old client.0 call refusal) }
        ensures err { OnErr result (self.new ≡ self.old) }
    {
        self.kept.insert(client.0, KeptCall::new(call, refusal))?;
        Ok(())
    }
}

fn put_directory<A: Allocator + Clone>(
    names: &mut Namespace<A>,
    path: &Path,
) -> Result<(), NoMemory>
    ensures { OnOk result (names.new ≡ map.insert names.old path.now Dir) }
{
    match names.insert(path, NameNode::dir()) {
        Ok(()) => Ok(()),
        Err(_) => Err(NoMemory),
    }
}

// A text that is a path.
fn path(alloc: Global, text: &str) -> Result<Path, NoMemory>
    ensures { IfOk result (λ p. p ≡ text.now) }
{
    match Path::parse(alloc, text) {
        Ok(path) => Ok(path),
        Err(_) => Err(NoMemory),
    }
}
