//! What was seen of all steps of a cell, by its journals.

ghost use Rattle.std.specs.Prelude.{◌≡◌, ◌<◌, ◌++◌, map, IfOk, IfErr, OnOk};
ghost use Rattle.protocol.specs.Observer.{entries_of};
ghost use Rattle.protocol_journal.specs.Journal.{observer_of};
ghost use Rattle.relaxed_file.specs.Regions.{regions_of};
ghost use Rattle.cell_journal.specs.WholeHistories.{whole_of};
ghost use Rattle.cell_world.specs.Kept.{blank_seen};
ghost use Rattle.cell_looks.specs.Faults.{IsHistoryFault, IsJournalFault};
ghost use Rattle.cell_looks.specs.Looks.{AreSightsOf};
ghost use Rattle.cell_looks.specs.Noted.{is_client, noted_of, noted_in};

use crate::journals::journals_of;
use crate::look_fault::LookFault;
use cell_journal::closed_history::ClosedHistory;
use cell_journal::journal_entry::JournalEntry;
use cell_seats::journal::Journal;
use cell_world::sights::Sights;
use gfs_types::ids::{Handle, Node};
use gfs_types::no_memory::NoMemory;
use relaxed_file::region::Region;
use std::alloc::Global;

/// The regions of a chunk, by its handle, up to the end of a journal.
///
/// - `Partial`: of the cell's history some entries were let go.
/// - `NoMemory`: memory was refused.
pub fn regions_of_chunk(
    alloc: Global,
    journal: &Journal,
    handle: Handle,
) -> Result<Vec<Region>, LookFault>
    ensures regions { IfOk result (λ r. r.items ≡ regions_of (entries_of (observer_of journal.now.now.cell.config (whole_of journal.now.now)) handle.0)) }
    ensures fault { IfErr result (IsJournalFault journal.now) }
{
    let sights = sights_of(alloc, journal)?;
    Ok(sights.regions(alloc, handle)?)
}

// What was seen of all steps up to the end of a journal. None: some entries were let go.
pub(crate) fn sights_kept(alloc: Global, journal: &Journal) -> Result<Option<Sights>, NoMemory>
    ensures { IfOk result (AreSightsOf journal.now) }
{
    match sights_of(alloc, journal) {
        Ok(sights) => Ok(Some(sights)),
        Err(LookFault::Partial) => Ok(None),
        Err(_) => Err(NoMemory),
    }
}

fn sights_of(alloc: Global, journal: &Journal) -> Result<Sights, LookFault>
    ensures seen { IfOk result (λ s. s.seen ≡ map blank_seen (noted_in (whole_of journal.now.now))) }
    ensures fault { IfErr result (IsJournalFault journal.now) }
{
    let mut left = journals_of(alloc, journal)?;
    let mut sights = Sights::new(alloc);
    while let Some(earliest) = left.pop() {
        note_all(earliest.history(), &mut sights)?;
    }
    Ok(sights)
}

// What was seen of a journal's steps is noted.
fn note_all(history: &ClosedHistory, sights: &mut Sights) -> Result<(), LookFault>
    requires { 0 < sights.old.room }
    ensures seen { OnOk result (sights.new.seen ≡ sights.old.seen ++ map blank_seen (noted_in history.now.entries)) }
    ensures room { OnOk result (0 < sights.new.room) }
    ensures fault { IfErr result (IsHistoryFault history.now) }
{
    for place in 0..history.len() {
        let Some(entry) = history.event(place) else {
            return Err(LookFault::Partial);
        };
        note(entry, sights)?;
    }
    Ok(())
}

// What was seen of a step is noted.
fn note(entry: &JournalEntry, sights: &mut Sights) -> Result<(), NoMemory>
    requires { 0 < sights.old.room }
    ensures seen { OnOk result (sights.new.seen ≡ sights.old.seen ++ map blank_seen (noted_of entry.now.node entry.now.seen)) }
    ensures room { OnOk result (0 < sights.new.room) }
{
    if is_client(entry.node()) {
        return Ok(());
    }
    sights.notes(entry.seen())
}

fn is_client(node: Node) -> bool
    ensures { result ≡ is_client node }
{
    match node {
        Node::Client(_) => true,
        _ => false,
    }
}
