//! A cell that keeps the events that a script's lines come to.

ghost use Rattle.std.specs.Prelude.{◌≡◌};
ghost use Rattle.shell.specs.Worlds.{meaning_of};

use crate::rows::Row;
use cell_simulator::cell::SimulatedCell;
use cell_simulator::run::run_lines;
use cell_simulator::simulator::Simulator;
use gfs_types::answer::Answer;
use gfs_types::ids::{ClientId, FileId, Handle, Moment};
use gfs_types::no_memory::NoMemory;
use gfs_types::path::Path;
use messages::event::Event;
use messages::message::Message;
use relaxed_file::region::Region;
use script::script_fault::ScriptFault;
use script::stored::StoredReplica;
use shell::making::{ScriptCell, new_cell};
use std::alloc::Global;

/// A cell that keeps each event that it takes, and each answer that it gives. It drops no messages, so that their numbers stay.
#[derive(Drop)]
pub(crate) struct Recorded {
    cell: ScriptCell<Global>,
    pub events: Vec<Event>,
    pub answers: Vec<Answer>,
    /// Whether there was memory for each.
    is_whole: bool,
}

/// Whether there was memory for it.
fn keep_event(events: &mut Vec<Event>, event: &Event) -> bool {
    match event.clone() {
        Ok(copy) => events.push(copy).is_ok(),
        Err(_) => false,
    }
}

/// Whether there was memory for it, if there is one.
fn keep_answer(answers: &mut Vec<Answer>, answer: Option<&Answer>) -> bool {
    let Some(answer) = answer else {
        return true;
    };
    match answer.clone() {
        Ok(copy) => answers.push(copy).is_ok(),
        Err(_) => false,
    }
}

impl SimulatedCell for Recorded {
    ghost meaning = { record (meaning_of (λ c. c.cell.world)) { drops = λ old new. new ≡ old } };

    fn step(&mut self, event: Event) -> Option<Answer> {
        let is_kept = keep_event(&mut self.events, &event);
        let answer = self.cell.step(event);
        let is_answer_kept = keep_answer(&mut self.answers, answer.as_ref());
        self.is_whole &= is_kept && is_answer_kept;
        answer
    }

    fn rebase(&mut self, now: Moment) {
        self.cell.rebase(now);
    }

    fn drop_messages(&mut self) -> u64 {
        self.cell.world.message_count()
    }

    fn message(&self, number: u64) -> Option<&Message> {
        self.cell.message(number)
    }

    fn server_count(&self) -> u16 {
        self.cell.server_count()
    }

    fn client_count(&self) -> u64 {
        self.cell.client_count()
    }

    fn has_open_call(&self, client: ClientId) -> bool {
        self.cell.has_open_call(client)
    }

    fn file(&self, path: &Path) -> Option<FileId> {
        self.cell.file(path)
    }

    fn regions(
        &self,
        alloc: Global,
        file: FileId,
        index: u64,
    ) -> Result<Option<Vec<Region>>, NoMemory> {
        self.cell.regions(alloc, file, index)
    }

    fn replicas(
        &self,
        alloc: Global,
        file: FileId,
        index: u64,
    ) -> Result<Option<(Handle, Vec<StoredReplica>)>, NoMemory> {
        self.cell.replicas(alloc, file, index)
    }
}

impl Recorded {
    /// How many messages were sent.
    pub fn message_count(&self) -> u64 {
        self.cell.world.message_count()
    }
}

/// Whether a row's script prints what it has to, and there was memory for all that is kept.
fn prints(
    alloc: Global,
    simulator: &mut Simulator<Recorded>,
    row: &Row,
) -> Result<bool, ScriptFault> {
    let mut reader = row.script.as_bytes();
    let mut printed = Vec::new(alloc);
    let end = run_lines(alloc, simulator, &mut reader, &mut printed);
    let is_printed = printed.as_slice() == row.printed.as_bytes();
    drop(printed);
    end?;
    if simulator.cell.is_whole {
        Ok(is_printed)
    } else {
        Err(ScriptFault::NoMemory)
    }
}

/// The events of a row's script, and their answers. None where it doesn't print what it has to.
pub(crate) fn record_row(alloc: Global, row: &Row) -> Result<Option<Recorded>, ScriptFault> {
    let cell = new_cell(alloc, alloc, &row.options())?;
    let recorded = Recorded {
        cell,
        events: Vec::new(alloc),
        answers: Vec::new(alloc),
        is_whole: true,
    };
    let mut simulator = Simulator::new(alloc, recorded);
    let prints = prints(alloc, &mut simulator, row);
    let Simulator { cell, .. } = simulator;
    match prints {
        Ok(true) => Ok(Some(cell)),
        Ok(false) => {
            drop(cell);
            Ok(None)
        }
        Err(fault) => {
            drop(cell);
            Err(fault)
        }
    }
}
