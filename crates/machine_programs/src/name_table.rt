//! The name step: what a name call comes to, and the names after it (section 4.1 of the Google File System paper).

ghost use Rattle.std.specs.Prelude.{Option, ◌≡◌, ◌<◌, ◌≤◌, [], ◌∷◌, ◌++◌, IfOk, OnOk, string_bytes};
ghost use Rattle.gfs_types.specs.declared.call.Call.TheVariants as call;
ghost use Rattle.gfs_types.specs.Paths.{hidden_name, last_digits, digit};
ghost use Rattle.gfs_types.specs.declared.answer.Answer.TheVariants as answer;
ghost use Rattle.gfs_types.specs.declared.shape.Shape.{Shape};
ghost use Rattle.relaxed_file.specs.Names.{node_at};
ghost use Rattle.relaxed_file.specs.Machine.{Replies};
ghost use Rattle.relaxed_file.specs.NameStep.{refusal_of, done_outcome, opened};
ghost use Rattle.machine_programs.specs.NameTables.{first_table, with_copy, outcome_is, Performs, IsNameStep};

use crate::copies::copies_of;
use crate::listing::listing_of;
use crate::name::Name;
use crate::name_kind::PlainNameKind;
use crate::name_list::PlainNames;
use crate::outcome::NameOutcome;
use gfs_types::answer::Answer;
use gfs_types::call::Call;
use gfs_types::config::Config;
use gfs_types::ids::FileId;
use gfs_types::lists::Text;
use gfs_types::no_memory::NoMemory;
use gfs_types::refusal::Refusal;
use std::alloc::Global;
use std::marker::Model;

/// The names of a cell, and how many files were made so far. Files are numbered from 1.
#[derive(Drop)]
pub struct NameTable {
    config: Config,
    names: PlainNames,
    file_count: u64,
    alloc: Global,
}

impl Model for NameTable {
    ghost use Rattle.std.specs.Coded.{codes, coded_ℕ, coded_list};
    ghost use Rattle.std.specs.FinMap as map;
    ghost use Rattle.machine_programs.specs.NameTables as tables;

    ghost Value = { tables.NameTable };

    ghost coded = { Prim.hlevel (codes, map.code, coded_list, coded_ℕ) };

    ghost view = { λ t. record { config = t.config; names = t.names; file_count = t.file_count } };
}

impl NameTable {
    /// The names of a new cell with these settings.
    pub fn new(alloc: Global, config: Config) -> Result<NameTable, NoMemory>
        ensures { IfOk result (λ t. t ≡ first_table config) }
    {
        let mut names = PlainNames::empty(alloc);
        names.insert(Text::from_str("/.gone", alloc)?, PlainNameKind::Dir)?;
        names.insert(Text::from_str("/", alloc)?, PlainNameKind::Dir)?;
        Ok(NameTable {
            config,
            names,
            file_count: 0,
            alloc,
        })
    }

    /// A new directory.
    fn mkdir(&mut self, path: Text, moment: u64) -> Result<(), NoMemory>
        ensures { OnOk result (Performs self.old (call.Mkdir path) moment self.new) }
    {
        self.names.insert(path, PlainNameKind::Dir)
    }

    /// A directory goes.
    fn rmdir(&mut self, path: &str, moment: u64)
        ensures { Performs self.old (call.Rmdir path.now) moment self.new }
    {
        self.names.remove(path);
    }

    /// A new file, under the next id, of whatever shape. NoMemory also where there is no further id.
    fn create(&mut self, path: Text, moment: u64) -> Result<(), NoMemory>
        ensures { OnOk result ((shape : Option Shape) → Performs self.old (call.Create path shape) moment self.new) }
    {
        let id = self.file_count.checked_add(1).ok_or(NoMemory)?;
        self.names.insert(path, PlainNameKind::File(FileId(id)))?;
        self.file_count = id;
        Ok(())
    }

    /// A file gets another name.
    fn rename(&mut self, path: &str, to: Text, moment: u64) -> Result<(), NoMemory>
        ensures { OnOk result (Performs self.old (call.Rename path.now to) moment self.new) }
    {
        let Some(kind) = self.names.kind_at(path) else {
            self.names.remove(path);
            return Ok(());
        };
        self.names.remove(path);
        self.names.insert(to, kind)
    }

    /// A deleted file goes to its hidden name.
    fn delete(&mut self, path: &str, moment: u64) -> Result<(), NoMemory>
        ensures { OnOk result (Performs self.old (call.Delete path.now) moment self.new) }
    {
        let Some(PlainNameKind::File(id)) = self.names.kind_at(path) else {
            return Ok(());
        };
        self.names.remove(path);
        self.names.insert(
            hidden_name(self.alloc, moment, id)?,
            PlainNameKind::File(id),
        )
    }

    /// The copies of a snapshot, in the order of their paths.
    fn snapshot(&mut self, path: &str, to: &str, moment: u64) -> Result<(), NoMemory>
        ensures { OnOk result (Performs self.old (call.Snapshot path.now to.now) moment self.new) }
    {
        let copies = copies_of(self.alloc, self.names.as_slice(), path, to)?;
        for copy in &copies {
            self.add_copy(copy)?;
        }
        Ok(())
    }

    /// A copy of a directory, or of a file under the next id. NoMemory also where there is no further id.
    fn add_copy(&mut self, copy: &Name) -> Result<(), NoMemory>
        ensures { OnOk result (self.new ≡ with_copy self.old copy.now.0 copy.now.1) }
    {
        let path = Text::from_str(copy.path(), self.alloc)?;
        match copy.kind() {
            PlainNameKind::Dir => self.names.insert(path, PlainNameKind::Dir),
            PlainNameKind::File(_) => {
                let id = self.file_count.checked_add(1).ok_or(NoMemory)?;
                self.names.insert(path, PlainNameKind::File(FileId(id)))?;
                self.file_count = id;
                Ok(())
            }
        }
    }

    /// The first refusal of a call, if it has one. NoMemory: there was no room to list a snapshot's copies.
    pub fn refusal_of(&self, call: &Call) -> Result<Option<Refusal>, NoMemory>
        ensures { IfOk result (λ r. r ≡ refusal_of self.now.config self.now.names call.now) }
    {
        let names = &self.names;
        Ok(match call {
            Call::Mkdir(path) => names.refusal_of_new(path.as_str()),
            Call::Create(path, shape) => {
                names.refusal_of_create(&self.config, path.as_str(), *shape)
            }
            Call::Rmdir(path) => names.refusal_of_rmdir(path.as_str()),
            Call::Open(path) => names.refusal_of_open(path.as_str()),
            Call::List(path) => names.refusal_of_list(path.as_str()),
            Call::Delete(path) => names.refusal_of_delete(path.as_str()),
            Call::Rename(path, to) => names.refusal_of_rename(path.as_str(), to.as_str()),
            Call::Snapshot(path, to) => {
                names.refusal_of_snapshot(self.alloc, path.as_str(), to.as_str())?
            }
            Call::Close(_) | Call::Length(_) | Call::Write(_, _, _) | Call::Append(_, _) => None,
            Call::Read(_, _, _) => None,
        })
    }

    /// What a call comes to that meets no refusal.
    fn finish(&self, call: &Call) -> Result<NameOutcome, NoMemory>
        ensures { IfOk result (λ o. outcome_is o ≡ done_outcome self.now.names call.now) }
    {
        match call {
            Call::Open(path) => Ok(self.open(path.as_str())),
            Call::List(path) => Ok(NameOutcome::Replies(Answer::Names(listing_of(
                self.alloc,
                self.names.as_slice(),
                path.as_str(),
            )?))),
            Call::Mkdir(_) | Call::Rmdir(_) | Call::Create(_, _) | Call::Delete(_) => Ok(done()),
            Call::Rename(_, _) | Call::Snapshot(_, _) | Call::Close(_) => Ok(done()),
            Call::Length(_) | Call::Write(_, _, _) | Call::Append(_, _) => Ok(done()),
            Call::Read(_, _, _) => Ok(done()),
        }
    }

    fn open(&self, path: &str) -> NameOutcome
        ensures { outcome_is result ≡ opened (node_at self.now.names path.now) }
    {
        match self.names.kind_at(path) {
            None => NameOutcome::Replies(Answer::Refused(Refusal::NotFound)),
            Some(PlainNameKind::Dir) => NameOutcome::Replies(Answer::Refused(Refusal::NotFile)),
            Some(PlainNameKind::File(id)) => NameOutcome::Opens(id),
        }
    }

    /// The effect of a call that meets no refusal; a deletion writes the moment into the hidden name.
    fn perform(&mut self, call: &Call, moment: u64) -> Result<(), NoMemory>
        ensures { OnOk result (Performs self.old call.now moment self.new) }
    {
        let alloc = self.alloc;
        match call {
            Call::Mkdir(path) => self.mkdir(path.copy(alloc)?, moment),
            Call::Create(path, _) => self.create(path.copy(alloc)?, moment),
            Call::Rmdir(path) => {
                self.rmdir(path.as_str(), moment);
                Ok(())
            }
            Call::Delete(path) => self.delete(path.as_str(), moment),
            Call::Rename(path, to) => self.rename(path.as_str(), to.copy(alloc)?, moment),
            Call::Snapshot(path, to) => self.snapshot(path.as_str(), to.as_str(), moment),
            Call::Open(_) | Call::List(_) | Call::Close(_) | Call::Length(_) => Ok(()),
            Call::Write(_, _, _) | Call::Append(_, _) | Call::Read(_, _, _) => Ok(()),
        }
    }

    /// The name step of a call: its first refusal, and nothing changes, or its effect at this moment. A call on a file changes
    /// no name. NoMemory may leave a part of the effect.
    pub fn name_step(&mut self, call: &Call, moment: u64) -> Result<NameOutcome, NoMemory>
        ensures { IfOk result (λ o. IsNameStep self.old call.now moment (outcome_is o) self.new) }
    {
        if let Some(refusal) = self.refusal_of(call)? {
            return Ok(NameOutcome::Replies(Answer::Refused(refusal)));
        }
        let outcome = self.finish(call)?;
        self.perform(call, moment)?;
        Ok(outcome)
    }
}

fn done() -> NameOutcome
    ensures { outcome_is result ≡ Replies answer.Done }
{
    NameOutcome::Replies(Answer::Done)
}

/// The name that hides a deleted file: the moment in 20 digits and its id in 16.
fn hidden_name(alloc: Global, moment: u64, file: FileId) -> Result<Text, NoMemory>
    ensures { IfOk result (λ t. t ≡ hidden_name moment file.0) }
{
    let mut text = String::from_str(alloc, "/.gone/")?;
    push_digits(&mut text, 10, 20, moment)?;
    text.push_str("-")?;
    push_digits(&mut text, 16, 16, file.0)?;
    Ok(Text::new(text))
}

/// Adds the last digits of a number, so many of them.
fn push_digits(text: &mut String, base: u64, count: u64, number: u64) -> Result<(), NoMemory>
    requires least { 0 < base }
    requires most { base ≤ 16 }
    ensures { OnOk result (string_bytes text.new ≡ string_bytes text.old ++ last_digits base count number) }
{
    if count == 0 {
        return Ok(());
    }
    push_digits(text, base, count - 1, number / base)?;
    text.push_str(digit(number % base))?;
    Ok(())
}

fn digit(value: u64) -> &'static str
    requires { value < 16 }
    ensures { result.now ≡ digit value ∷ [] }
{
    match value {
        0 => "0",
        1 => "1",
        2 => "2",
        3 => "3",
        4 => "4",
        5 => "5",
        6 => "6",
        7 => "7",
        8 => "8",
        9 => "9",
        10 => "a",
        11 => "b",
        12 => "c",
        13 => "d",
        14 => "e",
        _ => "f",
    }
}
