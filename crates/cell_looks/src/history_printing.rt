//! Prints the lines of a history.

ghost use Rattle.std.specs.Prelude.{◌≡◌, ◌≢◌, ◌++◌, ◌∷◌, [], false, IfErr, IfSome, IfNone, OnOk, length, ◌<◌};
ghost use Rattle.std.specs.Io.KnownBytes.{Appends};
ghost use Rattle.cell_looks.specs.declared.history_fault.HistoryFault.TheVariants.{Partial};
ghost use Rattle.cell_journal.specs.Entries.{cause_of};
ghost use Rattle.cell_journal.specs.Retained.{gone_of};
ghost use Rattle.cell_journal.specs.WholeHistories.{whole_of};
ghost use Rattle.cell_looks.specs.Noted.{is_client};
ghost use Rattle.gfs_types.specs.declared.ids.Node.TheVariants.{Client};
ghost use Rattle.cell_looks.specs.HistoryLines.{asked_by, answered_by, entry_lines, history_lines, IsHistoryFault};

use crate::history_fault::HistoryFault;
use crate::journals::journals_of;
use cell_journal::closed_history::ClosedHistory;
use cell_journal::journal_entry::{JournalEntry, StepCause};
use cell_seats::journal::Journal;
use gfs_types::answer::Answer;
use gfs_types::ids::{ClientId, Moment, Node};
use script::call_lines::{AnsweredLine, AskedLine};
use std::alloc::Global;
use std::fmt;
use std::io::Write;

/// Prints each call and each answer of the whole history up to a journal's end, a line for each.
///
/// - `Partial`: some entries were let go.
/// - `NoMemory`: memory was refused.
/// - `Write`: the writer failed.
pub fn print_history<W: Write>(
    alloc: Global,
    journal: &Journal,
    writer: &mut W,
) -> Result<(), HistoryFault>
    ensures printed { OnOk result (Appends (W.contents writer.old) (W.contents writer.new) (history_lines (whole_of journal.now.now))) }
    ensures fault { IfErr result (IsHistoryFault journal.now) }
{
    let mut left = journals_of(alloc, journal)?;
    while let Some(earliest) = left.pop() {
        print_entries(earliest.history(), writer)?;
    }
    Ok(())
}

fn print_entries<W: Write>(history: &ClosedHistory, writer: &mut W) -> Result<(), HistoryFault>
    ensures printed { OnOk result (Appends (W.contents writer.old) (W.contents writer.new) (history_lines history.now.entries)) }
    ensures fault { IfErr result (λ f. f ≡ Partial → 0 < gone_of history.now.cell.retention (length history.now.entries)) }
{
    for place in 0..history.len() {
        let Some(entry) = history.event(place) else {
            return Err(HistoryFault::Partial);
        };
        print_entry(entry, writer)?;
    }
    Ok(())
}

fn print_entry<W: Write>(entry: &JournalEntry, writer: &mut W) -> Result<(), HistoryFault>
    ensures printed { OnOk result (Appends (W.contents writer.old) (W.contents writer.new) (entry_lines entry.now)) }
    ensures fault { IfErr result (λ f. f ≢ Partial) }
{
    match client_of(entry.node()) {
        Some(client) => print_step(client, entry, writer),
        None => Ok(()),
    }
}

fn client_of(node: Node) -> Option<ClientId>
    ensures some { IfSome result (λ c. node ≡ Client c) }
    ensures none { IfNone result (is_client node ≡ false) }
{
    match node {
        Node::Client(client) => Some(client),
        Node::Master | Node::Server(_) => None,
    }
}

fn print_step<W: Write>(
    client: ClientId,
    entry: &JournalEntry,
    writer: &mut W,
) -> Result<(), HistoryFault>
    requires { entry.now.node ≡ Client client }
    ensures printed { OnOk result (Appends (W.contents writer.old) (W.contents writer.new) (entry_lines entry.now)) }
    ensures fault { IfErr result (λ f. f ≢ Partial) }
{
    let moment = entry.moment();
    print_call(moment, client, entry.cause(), writer)?;
    print_answer(moment, client, &entry.out().answer, writer)
}

#[tactic(auto, using(crate::proofs::Appending::appends_none))]
fn print_call<W: Write>(
    moment: Moment,
    client: ClientId,
    cause: &StepCause,
    writer: &mut W,
) -> Result<(), HistoryFault>
    ensures printed { OnOk result (Appends (W.contents writer.old) (W.contents writer.new) (asked_by moment.0 (Client client) (cause_of cause.now))) }
    ensures fault { IfErr result (λ f. f ≢ Partial) }
{
    match cause {
        StepCause::Calls(call) => {
            let line = AskedLine {
                moment,
                client,
                call,
            };
            print_line(&line, writer)
        }
        StepCause::Takes(_) | StepCause::Restarts => Ok(()),
    }
}

#[tactic(auto, using(crate::proofs::Appending::appends_none))]
fn print_answer<W: Write>(
    moment: Moment,
    client: ClientId,
    answer: &Option<Answer>,
    writer: &mut W,
) -> Result<(), HistoryFault>
    ensures printed { OnOk result (Appends (W.contents writer.old) (W.contents writer.new) (answered_by moment.0 (Client client) answer.now)) }
    ensures fault { IfErr result (λ f. f ≢ Partial) }
{
    match answer {
        Some(answer) => {
            let line = AnsweredLine {
                moment,
                client,
                answer,
            };
            print_line(&line, writer)
        }
        None => Ok(()),
    }
}

fn print_line<L: fmt::Display, W: Write>(line: &L, writer: &mut W) -> Result<(), HistoryFault>
    ensures printed { OnOk result (IfSome (L.output line.now) (λ text. Appends (W.contents writer.old) (W.contents writer.new) (text ++ 10 ∷ []))) }
    ensures fault { IfErr result (λ f. f ≢ Partial) }
{
    writeln!(writer, "{line}").map_err(|e| HistoryFault::of_write(&e))
}
