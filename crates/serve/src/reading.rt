//! Takes the lines, and hands out the calls.

ghost use Rattle.std.specs.Prelude.{◌≡◌, ◌⊎◌, ◌+◌, ◌<◌, IfOk, IfErr, IfSome, IfNone, OnOk, Some, length};
ghost use Rattle.serve_lines.specs.Input.{ReadsWholeLine};
ghost use Rattle.serve_lines.specs.Lines.{served_line_of};
ghost use Rattle.script.specs.declared.fault.LineFault.TheVariants.{Bad};
ghost use Rattle.serve.specs.Served.{call_in, calls_served};
ghost use Rattle.serve_lines.specs.declared.lines.ServedLine.TheVariants as served;
ghost use Rattle.serve.specs.Messages.{AreCounts, AreNext, AreTaken, HaveAsked, IsOfReading};

use crate::served_messages::{AskedCall, Serving, Told};
use cell_seats::mailboxes::Policy;
use crossbeam_channel::Sender;
use gfs_types::ids::Node;
use script::cell_lines::ClientCall;
use script::fault::LineFault;
use script::script_fault::ScriptFault;
use serve_lines::input::read_whole_line;
use serve_lines::lines::{ServedLine, parse};
use std::alloc::Global;
use std::io::Read;
use std::marker::PhantomData;
use std::sync::Wait;

/// Is told of lines that are not in the language, or name what isn't there.
pub trait LineFaults {
    fn tell(&self, fault: ScriptFault);
}

/// Where what the lines ask for goes.
#[derive(Drop)]
pub struct Receivers<S: Serving> {
    pub servers: u64,
    /// Each client's calls on their way to it.
    pub calls: Vec<Sender<AskedCall<S>>>,
    /// How many calls each client was asked for.
    pub asked: Vec<u64>,
    pub told: Sender<Told<S>>,
}

impl<S: Serving> Receivers<S> {
    /// Takes all lines, one by one as they come. A bad one is told, and the rest goes on.
    ///
    /// - `NoMemory`: memory was refused.
    /// - `Read`: the reader failed.
    /// - `Write`: nobody hears of what is asked any more.
    pub fn read_all<W: Wait, R: Read, F: LineFaults>(
        &mut self,
        rt: &W,
        alloc: Global,
        reader: &mut R,
        faults: &F,
    ) -> Result<(), ScriptFault>
        requires input { R.remaining reader.old ≡ S.of.input }
        requires asked { HaveAsked S.of S.of.input S.of.input self.old.asked.items }
        ensures clients { length self.new.asked.items ≡ S.of.clients }
        ensures all { OnOk result (IfSome S.of.input (λ input. AreCounts self.new.asked.items (calls_served S.of.clients input))) }
        ensures fault { IfErr result IsOfReading }
    {
        let mut text = Vec::new(alloc);
        for before in 0..u64::MAX {
            let is_there = next_line(reader, &mut text)?;
            if !is_there {
                return Ok(());
            }
            let is_known = self.take(rt, alloc, text.as_slice())?;
            if !is_known {
                faults.tell(ScriptFault::Line(before + 1));
            }
        }
        // No input has so many lines.
        Err(ScriptFault::NoMemory)
    }

    // Hands on what a line asks for. Tells whether it is in the language, and names what is there.
    fn take<W: Wait>(&mut self, rt: &W, alloc: Global, text: &[u8]) -> Result<bool, ScriptFault>
        requires { AreNext S.of self.old.asked.items (call_in S.of.clients (served_line_of text.now)) }
        ensures taken { OnOk result (AreTaken self.old.asked.items self.new.asked.items (call_in S.of.clients (served_line_of text.now))) }
        ensures clients { length self.new.asked.items ≡ length self.old.asked.items }
        ensures fault { IfErr result IsOfReading }
    {
        match parse(alloc, text) {
            Ok(line) => self.obey(rt, line),
            Err(refusal) => refuse(refusal),
        }
    }

    // Does what a line asks for.
    fn obey<W: Wait>(&mut self, rt: &W, line: ServedLine) -> Result<bool, ScriptFault>
        requires { AreNext S.of self.old.asked.items (call_in S.of.clients (Some line)) }
        ensures taken { OnOk result (AreTaken self.old.asked.items self.new.asked.items (call_in S.of.clients (Some line))) }
        ensures clients { length self.new.asked.items ≡ length self.old.asked.items }
        ensures fault { IfErr result IsOfReading }
    {
        if let ServedLine::Call(asked) = line {
            return self.hand_out(rt, asked);
        }
        self.pass_on(rt, &line)
    }

    // Tells of what a line asks for that is no call.
    fn pass_on<W: Wait>(&self, rt: &W, line: &ServedLine) -> Result<bool, ScriptFault>
        ensures { IfErr result IsOfReading }
    {
        match line {
            ServedLine::Room => self.tell(rt, Told::Room),
            ServedLine::Restart(node) => self.restart(rt, *node),
            ServedLine::Net(lose, repeat, hold) => {
                let policy = Policy {
                    drop_every: *lose,
                    repeat_every: *repeat,
                    hold_every: *hold,
                };
                self.tell(rt, Told::Net(policy))
            }
            _ => Ok(true),
        }
    }

    fn tell<W: Wait>(&self, rt: &W, told: Told<S>) -> Result<bool, ScriptFault>
        ensures { IfErr result IsOfReading }
    {
        match self.told.send(rt, told) {
            Ok(()) => Ok(true),
            Err(_) => Err(ScriptFault::Write),
        }
    }

    // The master or a server is to begin again, if it is there.
    fn restart<W: Wait>(&self, rt: &W, node: Node) -> Result<bool, ScriptFault>
        ensures { IfErr result IsOfReading }
    {
        let is_there = match node {
            Node::Master => true,
            Node::Server(id) => u64::from(id.0) <= self.servers,
            Node::Client(_) => false,
        };
        if is_there {
            self.tell(rt, Told::Restart(node))
        } else {
            Ok(false)
        }
    }

    // A call goes to its client, if the client is there.
    fn hand_out<W: Wait>(&mut self, rt: &W, line: ClientCall) -> Result<bool, ScriptFault>
        requires { AreNext S.of self.old.asked.items (call_in S.of.clients (Some (served.Call line))) }
        ensures taken { OnOk result (AreTaken self.old.asked.items self.new.asked.items (call_in S.of.clients (Some (served.Call line)))) }
        ensures clients { length self.new.asked.items ≡ length self.old.asked.items }
        ensures fault { IfErr result IsOfReading }
    {
        let ClientCall { client, call } = line;
        let Some(place) = place_of(client.0, self.asked.len()) else {
            return Ok(false);
        };
        if place >= self.calls.len() {
            return Err(ScriptFault::NoMemory);
        }
        let number = self.asked[place];
        if number == u64::MAX {
            return Err(ScriptFault::NoMemory);
        }
        let asked = AskedCall {
            client,
            number,
            call,
            of: PhantomData,
        };
        if self.calls[place].send(rt, asked).is_err() {
            return Err(ScriptFault::Write);
        }
        self.asked[place] = number + 1;
        Ok(true)
    }
}

// The next line, if there is one, is now in `text`.
fn next_line<R: Read>(reader: &mut R, text: &mut Vec<u8>) -> Result<bool, ScriptFault>
    ensures line { IfOk result (ReadsWholeLine (R.remaining reader.old) (R.remaining reader.new) text.new.items) }
    ensures fault { IfErr result IsOfReading }
{
    match read_whole_line(reader, text) {
        Ok(is_there) => Ok(is_there),
        Err(error) => Err(ScriptFault::of_read(&error)),
    }
}

// What is told of a line that asks for nothing.
fn refuse(refusal: LineFault) -> Result<bool, ScriptFault>
    ensures bad { OnOk result (refusal ≡ Bad) }
    ensures fault { IfErr result IsOfReading }
{
    match refusal {
        LineFault::Bad => Ok(false),
        LineFault::NoMemory => Err(ScriptFault::NoMemory),
    }
}

/// The place of the client of this number, which is 1 for the first of so many.
pub fn place_of(client: u64, clients: usize) -> Option<usize>
    ensures place { IfSome result (λ place. (place < clients) × (place + 1 ≡ client)) }
    ensures none { IfNone result ((client ≡ 0) ⊎ (clients < client)) }
{
    if client == 0 {
        return None;
    }
    if client > clients as u64 {
        return None;
    }
    Some(client as usize - 1)
}
