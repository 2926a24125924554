//! Prints what is told, as it comes.

ghost use Rattle.std.specs.Prelude.{◌≡◌, ◌≤◌, ◌++◌, ◌∷◌, [], List, Some, OnOk, IfErr, length, true};
ghost use Rattle.std.specs.Io.KnownBytes.{Appends, Keeps};
ghost use mathlib.Core.List.{IsPrefix};
ghost use Rattle.cell_journal.specs.WholeHistories.{whole_of};
ghost use Rattle.script.specs.ScriptFaults.{IsOfWrite};
ghost use Rattle.cell_looks.specs.ToldLines.{told_line};
ghost use Rattle.serve.specs.Served.{room_line};
ghost use Rattle.serve.specs.Printing.{Stand, AreInOrder, PrintsOn, IsNextOf, IsPrintedOf};

use crate::reading::place_of;
use crate::served_messages::{Reply, Serving, Told};
use cell_journal::closed_history::agree;
use cell_journal::raised_entry::RaisedEntry;
use cell_journal::{Beginning, meet};
use cell_looks::printing::{flush, print_line};
use cell_run::cell::Cell;
use cell_seats::journal::Journal;
use crossbeam_channel::Receiver;
use gfs_types::answer::Answer;
use gfs_types::ghost_list::GhostList;
use gfs_types::ids::ClientId;
use script::answers::AnswerLine;
use script::script_fault::ScriptFault;
use std::fmt;
use std::io::Write;
use std::marker::{Model, PhantomData};
use std::sync::Wait;

/// How many answers of a client were printed, and whether the cell itself refused a call of it. What they are, and the cell's history that has them,
/// clauses read.
#[derive(Drop)]
pub struct PrintedAnswers<S: Serving> {
    pub client: ClientId,
    pub count: u64,
    pub is_lost: bool,
    pub seen: Beginning<RaisedEntry>,
    pub answers: GhostList<Answer>,
    pub of: PhantomData<S>,
}

impl<S: Serving> Model for PrintedAnswers<S> {
    ghost use Rattle.serve.specs.Messages.{IsPrinted};
    ghost use Rattle.serve.specs.Printing.{Stand, stand};

    ghost Value = { Stand };

    ghost view = { λ p. stand p.client.0 p.count p.is_lost p.seen p.answers.items };

    ghost invariant = { λ p. IsPrinted S.of p.client.0 p.count p.is_lost p.seen p.answers.items };
}

/// Does what is told, and prints each answer, a line for each, until nobody tells more. Nothing that was printed waits in a buffer while it waits
/// for more: where more was told it goes on, and else it flushes first.
///
/// - `Write`: the writer failed.
/// - `NoMemory`: memory was refused, or an answer was told that does not follow those that were printed of its client.
pub fn print_all<S: Serving, R: Wait, W: Write>(
    rt: &R,
    told: &Receiver<Told<S>>,
    cell: &mut Cell,
    printed: &mut [PrintedAnswers<S>],
    writer: &mut W,
) -> Result<(), ScriptFault>
    requires { AreInOrder printed.old }
    ensures cell { cell.new.of ≡ cell.old.of }
    ensures printed { OnOk result (PrintsOn printed.old printed.new (W.contents writer.old) (W.contents writer.new)) }
    ensures fault { IfErr result IsOfWrite }
{
    for _ in rt.forever() {
        let found = next_told(rt, told, writer)?;
        let Some(one) = found else {
            return Ok(());
        };
        obey(rt, one, cell, printed, writer)?;
    }
    unreachable!()
}

// What is told next, if somebody tells more. It flushes before it waits.
fn next_told<S: Serving, R: Wait, W: Write>(
    rt: &R,
    told: &Receiver<Told<S>>,
    writer: &mut W,
) -> Result<Option<Told<S>>, ScriptFault>
    ensures keeps { OnOk result (Keeps (W.contents writer.old) (W.contents writer.new)) }
    ensures fault { IfErr result IsOfWrite }
{
    if let Ok(one) = told.try_recv(rt) {
        return Ok(Some(one));
    }
    flush(writer)?;
    Ok(told.recv(rt).ok())
}

// Does what is told.
fn obey<S: Serving, R: Wait, W: Write>(
    rt: &R,
    one: Told<S>,
    cell: &mut Cell,
    printed: &mut [PrintedAnswers<S>],
    writer: &mut W,
) -> Result<(), ScriptFault>
    requires { AreInOrder printed.old }
    ensures cell { cell.new.of ≡ cell.old.of }
    ensures printed { OnOk result (PrintsOn printed.old printed.new (W.contents writer.old) (W.contents writer.new)) }
    ensures fault { IfErr result IsOfWrite }
{
    if let Told::Answered(reply) = one {
        return print_reply(reply, printed, writer);
    }
    tend_cell(rt, &one, cell, writer)
}

// Prints the room, asks a node to begin again, or tells the network what to do.
fn tend_cell<S: Serving, R: Wait, W: Write>(
    rt: &R,
    one: &Told<S>,
    cell: &mut Cell,
    writer: &mut W,
) -> Result<(), ScriptFault>
    ensures cell { cell.new.of ≡ cell.old.of }
    ensures printed { OnOk result ((stands : List Stand) → PrintsOn stands stands (W.contents writer.old) (W.contents writer.new)) }
    ensures fault { IfErr result IsOfWrite }
{
    match one {
        Told::Answered(_) => Ok(()),
        Told::Room => print_room(cell.room(), writer),
        Told::Restart(node) => {
            cell.restart(rt, *node);
            Ok(())
        }
        Told::Net(policy) => {
            cell.net(*policy);
            Ok(())
        }
    }
}

// Prints an answer, which has to follow those that were printed of its client.
fn print_reply<S: Serving, W: Write>(
    reply: Reply<S>,
    printed: &mut [PrintedAnswers<S>],
    writer: &mut W,
) -> Result<(), ScriptFault>
    requires { AreInOrder printed.old }
    ensures printed { OnOk result (PrintsOn printed.old printed.new (W.contents writer.old) (W.contents writer.new)) }
    ensures fault { IfErr result IsOfWrite }
{
    let Some(place) = place_of(reply.client(), printed.len()) else {
        return Err(ScriptFault::NoMemory);
    };
    let earlier = &mut printed[place];
    if !earlier.is_followed_by(&reply) {
        return Err(ScriptFault::NoMemory);
    }
    print_answer(&reply, writer)?;
    earlier.keep(reply);
    Ok(())
}

impl<S: Serving> PrintedAnswers<S> {
    // Whether it is the client's next answer.
    fn is_followed_by(&self, reply: &Reply<S>) -> bool
        ensures { result ≡ true → IsNextOf self.now reply.now }
    {
        if self.client.0 != reply.client.0 {
            return false;
        }
        if self.count != reply.number {
            return false;
        }
        if self.count == u64::MAX {
            return false;
        }
        if self.is_lost {
            return reply.is_lost;
        }
        true
    }

    // Keeps that the client's next answer was printed.
    fn keep(&mut self, reply: Reply<S>)
        requires { IsNextOf self.old reply }
        ensures client { self.new.client ≡ self.old.client }
        ensures answers { self.new.answers ≡ self.old.answers ++ reply.answer ∷ [] }
    {
        let Reply {
            client: _,
            number,
            answer,
            is_lost,
            seen,
            of: _,
        } = reply;
        self.answers = self.answers.and(&answer);
        self.count = number + 1;
        self.is_lost = is_lost;
        if is_lost {
            return;
        }
        meet(&self.seen, &seen);
        meet(&seen, &self.seen);
        self.seen = seen;
    }

    /// How many answers were printed. They are the client's first ones.
    pub fn count(&self) -> u64
        ensures count { result ≡ self.now.count }
        ensures printed { IsPrintedOf S.of self.now }
    {
        self.count
    }

    /// Of the histories that two clients have seen the shorter begins the longer.
    pub fn meet(&self, other: &PrintedAnswers<S>)
        ensures { length self.now.seen.items ≤ length other.now.seen.items → IsPrefix self.now.seen.items other.now.seen.items }
    {
        meet(&self.seen, &other.seen);
    }

    /// What was seen of the client begins the whole history of the cell, which was closed.
    pub fn agree(&self, journal: &Journal)
        requires cell { journal.now.now.cell ≡ S.of.cell }
        requires over { journal.now.now.is_over ≡ true }
        ensures { IsPrefix self.now.seen.items (whole_of journal.now.now) }
    {
        agree(&self.seen, journal.history());
    }
}

/// What is printed of the room in a journal, without a line feed.
#[derive(Clone, Copy)]
pub struct RoomLine {
    pub steps: u64,
}

impl fmt::Display for RoomLine {
    ghost output = { λ l. Some (room_line l.steps) };

    fn fmt<W: fmt::Write>(&self, f: &mut fmt::Formatter<W>) -> fmt::Result {
        let steps = self.steps;
        write!(f, "room {steps}")
    }
}

fn print_room<W: Write>(steps: u64, writer: &mut W) -> Result<(), ScriptFault>
    ensures printed { OnOk result (Appends (W.contents writer.old) (W.contents writer.new) (room_line steps ++ 10 ∷ [])) }
    ensures fault { IfErr result IsOfWrite }
{
    print_line(&RoomLine { steps }, writer)
}

fn print_answer<S: Serving, W: Write>(reply: &Reply<S>, writer: &mut W) -> Result<(), ScriptFault>
    ensures printed { OnOk result (Appends (W.contents writer.old) (W.contents writer.new) (told_line reply.now.client reply.now.answer)) }
    ensures fault { IfErr result IsOfWrite }
{
    let line = AnswerLine {
        client: reply.client,
        answer: &reply.answer,
    };
    print_line(&line, writer)
}
