//! The refusals of name calls: the tests of each call in order (section 4.1 of the Google File System paper).

ghost use Rattle.std.specs.Prelude.{◌≡◌, nat_lt, length, IfOk};
ghost use Rattle.std.specs.List.{list_any};
ghost use Rattle.gfs_types.specs.declared.call.Call.TheVariants as call;
ghost use Rattle.gfs_types.specs.declared.config.Config.{Config};
ghost use Rattle.gfs_types.specs.Shapes.{may_have};
ghost use Rattle.relaxed_file.specs.Names.{is_taken, is_dir, has_children, copied_entries};
ghost use Rattle.relaxed_file.specs.NameStep.{is_in_trash, is_reserved, refusal_of};

use crate::copies::{copies_of, is_some_too_long};
use crate::name_kind::PlainNameKind;
use crate::name_list::PlainNames;
use gfs_types::config::Config;
use gfs_types::no_memory::NoMemory;
use gfs_types::path::accepts_path;
use gfs_types::refusal::Refusal;
use gfs_types::shape::Shape;
use path_trie::parts::{is_at_or_below, is_child, parent};
use std::alloc::Global;

/// Whether a path is that of the directory of deleted files, or below it.
fn is_in_trash(path: &str) -> bool
    ensures { result ≡ is_in_trash path.now }
{
    is_at_or_below("/.gone", path)
}

/// Whether a path is the root, or in the trash.
fn is_reserved(path: &str) -> bool
    ensures { result ≡ is_reserved path.now }
{
    path == "/" || is_in_trash(path)
}

/// Whether a file may be asked for so.
fn may_have(config: &Config, shape: Option<Shape>) -> bool
    ensures { result ≡ may_have config.now shape }
{
    Shape::usual(config).or(shape).fits(config)
}

impl PlainNames {
    fn is_taken(&self, path: &str) -> bool
        ensures { result ≡ is_taken self.now path.now }
    {
        match self.kind_at(path) {
            None => false,
            Some(_) => true,
        }
    }

    fn is_dir(&self, path: &str) -> bool
        ensures { result ≡ is_dir self.now path.now }
    {
        match self.kind_at(path) {
            None => false,
            Some(PlainNameKind::Dir) => true,
            Some(PlainNameKind::File(_)) => false,
        }
    }

    fn has_children(&self, directory: &str) -> bool
        ensures { result ≡ has_children self.now directory.now }
    {
        self.as_slice()
            .iter()
            .any(|name| is_child(directory, name.path()))
    }

    /// The refusal of a new directory. A file whose shape may be had is refused likewise.
    pub fn refusal_of_new(&self, path: &str) -> Option<Refusal>
        ensures { (config : Config) → result ≡ refusal_of config self.now (call.Mkdir path.now) }
    {
        if !accepts_path(path.as_bytes()) {
            return Some(Refusal::BadPath);
        }
        if is_in_trash(path) {
            return Some(Refusal::Reserved);
        }
        if !self.is_dir(parent(path)) {
            return Some(Refusal::NoParent);
        }
        if self.is_taken(path) {
            return Some(Refusal::Exists);
        }
        None
    }

    pub fn refusal_of_create(
        &self,
        config: &Config,
        path: &str,
        shape: Option<Shape>,
    ) -> Option<Refusal>
        ensures { result ≡ refusal_of config.now self.now (call.Create path.now shape) }
    {
        if !accepts_path(path.as_bytes()) {
            return Some(Refusal::BadPath);
        }
        if !may_have(config, shape) {
            return Some(Refusal::BadSize);
        }
        self.refusal_of_new(path)
    }

    pub fn refusal_of_rmdir(&self, path: &str) -> Option<Refusal>
        ensures { (config : Config) → result ≡ refusal_of config self.now (call.Rmdir path.now) }
    {
        if !accepts_path(path.as_bytes()) {
            return Some(Refusal::BadPath);
        }
        if is_reserved(path) {
            return Some(Refusal::Reserved);
        }
        if !self.is_taken(path) {
            return Some(Refusal::NotFound);
        }
        if !self.is_dir(path) {
            return Some(Refusal::NotDir);
        }
        if self.has_children(path) {
            return Some(Refusal::NotEmpty);
        }
        None
    }

    pub fn refusal_of_open(&self, path: &str) -> Option<Refusal>
        ensures { (config : Config) → result ≡ refusal_of config self.now (call.Open path.now) }
    {
        if !accepts_path(path.as_bytes()) {
            return Some(Refusal::BadPath);
        }
        if !self.is_taken(path) {
            return Some(Refusal::NotFound);
        }
        if self.is_dir(path) {
            return Some(Refusal::NotFile);
        }
        None
    }

    pub fn refusal_of_list(&self, path: &str) -> Option<Refusal>
        ensures { (config : Config) → result ≡ refusal_of config self.now (call.List path.now) }
    {
        if !accepts_path(path.as_bytes()) {
            return Some(Refusal::BadPath);
        }
        if !self.is_taken(path) {
            return Some(Refusal::NotFound);
        }
        if !self.is_dir(path) {
            return Some(Refusal::NotDir);
        }
        None
    }

    pub fn refusal_of_delete(&self, path: &str) -> Option<Refusal>
        ensures { (config : Config) → result ≡ refusal_of config self.now (call.Delete path.now) }
    {
        if !accepts_path(path.as_bytes()) {
            return Some(Refusal::BadPath);
        }
        if is_in_trash(path) {
            return Some(Refusal::Reserved);
        }
        if !self.is_taken(path) {
            return Some(Refusal::NotFound);
        }
        if self.is_dir(path) {
            return Some(Refusal::NotFile);
        }
        None
    }

    pub fn refusal_of_rename(&self, path: &str, to: &str) -> Option<Refusal>
        ensures { (config : Config) → result ≡ refusal_of config self.now (call.Rename path.now to.now) }
    {
        if !accepts_path(path.as_bytes()) || !accepts_path(to.as_bytes()) {
            return Some(Refusal::BadPath);
        }
        if is_in_trash(to) {
            return Some(Refusal::Reserved);
        }
        if !self.is_taken(path) {
            return Some(Refusal::NotFound);
        }
        if self.is_dir(path) {
            return Some(Refusal::NotFile);
        }
        if !self.is_dir(parent(to)) {
            return Some(Refusal::NoParent);
        }
        if self.is_taken(to) {
            return Some(Refusal::Exists);
        }
        None
    }

    /// The refusal of a snapshot. NoMemory: there was no room to list the copies.
    pub fn refusal_of_snapshot(
        &self,
        alloc: Global,
        path: &str,
        to: &str,
    ) -> Result<Option<Refusal>, NoMemory>
        ensures { IfOk result (λ r. (config : Config) → r ≡ refusal_of config self.now (call.Snapshot path.now to.now)) }
    {
        if !accepts_path(path.as_bytes()) || !accepts_path(to.as_bytes()) {
            return Ok(Some(Refusal::BadPath));
        }
        if is_reserved(path) || is_reserved(to) {
            return Ok(Some(Refusal::Reserved));
        }
        if is_at_or_below(path, to) {
            return Ok(Some(Refusal::Inside));
        }
        if !self.is_taken(path) {
            return Ok(Some(Refusal::NotFound));
        }
        if !self.is_dir(parent(to)) {
            return Ok(Some(Refusal::NoParent));
        }
        if self.is_taken(to) {
            return Ok(Some(Refusal::Exists));
        }
        if self.has_long_copy(alloc, path, to)? {
            return Ok(Some(Refusal::TooLong));
        }
        Ok(None)
    }

    fn has_long_copy(&self, alloc: Global, path: &str, to: &str) -> Result<bool, NoMemory>
        ensures { IfOk result (λ b. b ≡ list_any (λ e. nat_lt 4096 (length e.0)) (copied_entries self.now path.now to.now)) }
    {
        let copies = copies_of(alloc, self.as_slice(), path, to)?;
        Ok(is_some_too_long(&copies))
    }
}
