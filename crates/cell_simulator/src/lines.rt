//! Runs the lines of a script.

ghost use Rattle.std.specs.Prelude.{◌≡◌, ℕ, List, Option, IfOk, IfErr, not};
ghost use Rattle.script.specs.ScriptFaults.{IsOfWrite};
ghost use Rattle.cell_simulator.specs.Shown.{state_of};
ghost use Rattle.cell_simulator.specs.Lines.{Ends, is_bad_call};

use crate::cell::SimulatedCell;
use crate::looks::{handle, print_regions, print_replicas};
use crate::simulator::Simulator;
use gfs_types::ids::{Node, ServerId};
use gfs_types::torn::Torn;
use messages::event::Event;
use script::cell_lines::{CellLine, ClientCall, Matter};
use script::lines::FileChunk;
use script::script_fault::ScriptFault;
use std::alloc::Global;
use std::io::Write;

/// How a line ended.
#[derive(Clone, Copy, Debug, PartialEq, Eq)]
pub enum LineEnd {
    Done,
    /// It names a node, a file or a chunk that the cell doesn't show, or is a call by a client whose last call is open.
    Bad,
    /// It needs more than a million rounds of ticks.
    NoEnd,
}

impl<C: SimulatedCell> Simulator<C> {
    /// Whether there is such a client, which waits for no answer.
    fn may_call(&self, asked: &ClientCall) -> bool
        ensures { result ≡ not (is_bad_call C.meaning self.now.cell asked.now) }
    {
        self.has_node(Node::Client(asked.client)) && !self.cell.has_open_call(asked.client)
    }

    /// A call, up to its answer.
    fn run_call<W: Write>(
        &mut self,
        asked: ClientCall,
        writer: &mut W,
    ) -> Result<LineEnd, ScriptFault>
        ensures ends { IfOk result (Ends C.meaning (state_of self.old) (CellLine.Call asked) (state_of self.new) (W.contents writer.old) (W.contents writer.new)) }
        ensures fault { IfErr result IsOfWrite }
    {
        if !self.may_call(&asked) {
            return Ok(LineEnd::Bad);
        }
        if self.call(asked, writer)? {
            Ok(LineEnd::Done)
        } else {
            Ok(LineEnd::NoEnd)
        }
    }

    /// A call that goes on behind its line.
    fn run_start<W: Write>(
        &mut self,
        asked: ClientCall,
        writer: &mut W,
    ) -> Result<LineEnd, ScriptFault>
        ensures ends { IfOk result (Ends C.meaning (state_of self.old) (CellLine.Start asked) (state_of self.new) (W.contents writer.old) (W.contents writer.new)) }
        ensures fault { IfErr result IsOfWrite }
    {
        if !self.may_call(&asked) {
            return Ok(LineEnd::Bad);
        }
        self.start(asked, writer)?;
        Ok(LineEnd::Done)
    }

    /// Goes on until no call is open.
    fn run_finish<W: Write>(&mut self, writer: &mut W) -> Result<LineEnd, ScriptFault>
        ensures ends { IfOk result (Ends C.meaning (state_of self.old) (CellLine.Finish) (state_of self.new) (W.contents writer.old) (W.contents writer.new)) }
        ensures fault { IfErr result IsOfWrite }
    {
        if self.finish(writer)? {
            Ok(LineEnd::Done)
        } else {
            Ok(LineEnd::NoEnd)
        }
    }

    /// So many milliseconds go by.
    fn run_wait<W: Write>(&mut self, count: u64, writer: &mut W) -> Result<LineEnd, ScriptFault>
        ensures ends { IfOk result (Ends C.meaning (state_of self.old) (CellLine.Wait count) (state_of self.new) (W.contents writer.old) (W.contents writer.new)) }
        ensures fault { IfErr result IsOfWrite }
    {
        self.wait(count, writer)?;
        Ok(LineEnd::Done)
    }

    /// The next message of this matter is put aside.
    fn run_hold(&mut self, matter: Matter) -> Result<LineEnd, ScriptFault>
        ensures ends { IfOk result (λ e. (known : Option (List ℕ)) → Ends C.meaning (state_of self.old) (CellLine.Hold matter) (state_of self.new) known known e) }
        ensures fault { IfErr result IsOfWrite }
    {
        if !self.has_node(matter.receiver) {
            return Ok(LineEnd::Bad);
        }
        self.network.hold(matter)?;
        Ok(LineEnd::Done)
    }

    /// What was put aside is delivered.
    fn run_free<W: Write>(&mut self, alloc: Global, writer: &mut W) -> Result<LineEnd, ScriptFault>
        ensures ends { IfOk result (Ends C.meaning (state_of self.old) (CellLine.Free) (state_of self.new) (W.contents writer.old) (W.contents writer.new)) }
        ensures fault { IfErr result IsOfWrite }
    {
        self.free(alloc, writer)?;
        Ok(LineEnd::Done)
    }

    /// The next message of this matter is delivered twice.
    fn run_twice(&mut self, matter: Matter) -> Result<LineEnd, ScriptFault>
        ensures ends { IfOk result (λ e. (known : Option (List ℕ)) → Ends C.meaning (state_of self.old) (CellLine.Twice matter) (state_of self.new) known known e) }
        ensures fault { IfErr result IsOfWrite }
    {
        if !self.has_node(matter.receiver) {
            return Ok(LineEnd::Bad);
        }
        self.network.double(matter)?;
        Ok(LineEnd::Done)
    }

    /// A node is cut off.
    fn run_cut(&mut self, node: Node) -> Result<LineEnd, ScriptFault>
        ensures ends { IfOk result (λ e. (known : Option (List ℕ)) → Ends C.meaning (state_of self.old) (CellLine.Cut node) (state_of self.new) known known e) }
        ensures fault { IfErr result IsOfWrite }
    {
        if !self.has_node(node) {
            return Ok(LineEnd::Bad);
        }
        self.network.cut(node)?;
        Ok(LineEnd::Done)
    }

    /// A cut ends.
    fn run_join(&mut self, node: Node) -> Result<LineEnd, ScriptFault>
        ensures ends { IfOk result (λ e. (known : Option (List ℕ)) → Ends C.meaning (state_of self.old) (CellLine.Join node) (state_of self.new) known known e) }
        ensures fault { IfErr result IsOfWrite }
    {
        if !self.has_node(node) {
            return Ok(LineEnd::Bad);
        }
        self.network.join(node);
        Ok(LineEnd::Done)
    }

    /// A node starts anew, if it is no client.
    fn run_restart<W: Write>(&mut self, node: Node, writer: &mut W) -> Result<LineEnd, ScriptFault>
        ensures ends { IfOk result (Ends C.meaning (state_of self.old) (CellLine.Restart node) (state_of self.new) (W.contents writer.old) (W.contents writer.new)) }
        ensures fault { IfErr result IsOfWrite }
    {
        if !self.has_node(node) {
            return Ok(LineEnd::Bad);
        }
        self.restart(node, writer)?;
        Ok(LineEnd::Done)
    }

    /// The master and each server begin again without a message.
    fn run_rebase(&mut self) -> Result<LineEnd, ScriptFault>
        ensures ends { IfOk result (λ e. (known : Option (List ℕ)) → Ends C.meaning (state_of self.old) (CellLine.Rebase) (state_of self.new) known known e) }
        ensures fault { IfErr result IsOfWrite }
    {
        self.rebase();
        Ok(LineEnd::Done)
    }

    /// A node's disk passes so many calls, and then fails.
    fn run_fuse<W: Write>(
        &mut self,
        node: Node,
        calls: u64,
        torn: Torn,
        writer: &mut W,
    ) -> Result<LineEnd, ScriptFault>
        ensures ends { IfOk result (Ends C.meaning (state_of self.old) (CellLine.Fuse node calls torn) (state_of self.new) (W.contents writer.old) (W.contents writer.new)) }
        ensures fault { IfErr result IsOfWrite }
    {
        if !self.has_node(node) {
            return Ok(LineEnd::Bad);
        }
        self.take(node, Event::Fuse { node, calls, torn }, writer)?;
        Ok(LineEnd::Done)
    }

    /// A byte of a chunk's replica changes.
    fn run_rot<W: Write>(
        &mut self,
        alloc: Global,
        server: ServerId,
        chunk: FileChunk,
        place: u64,
        byte: u8,
        writer: &mut W,
    ) -> Result<LineEnd, ScriptFault>
        ensures ends { IfOk result (Ends C.meaning (state_of self.old) (CellLine.Rot server chunk place byte) (state_of self.new) (W.contents writer.old) (W.contents writer.new)) }
        ensures fault { IfErr result IsOfWrite }
    {
        if !self.has_node(Node::Server(server)) {
            return Ok(LineEnd::Bad);
        }
        let Some(handle) = handle(alloc, &self.cell, &chunk)? else {
            return Ok(LineEnd::Bad);
        };
        let event = Event::Rot {
            server,
            handle,
            place,
            byte,
        };
        self.take(Node::Server(server), event, writer)?;
        Ok(LineEnd::Done)
    }

    /// Prints a chunk's regions.
    fn run_regions<W: Write>(
        &mut self,
        alloc: Global,
        chunk: FileChunk,
        writer: &mut W,
    ) -> Result<LineEnd, ScriptFault>
        ensures ends { IfOk result (Ends C.meaning (state_of self.old) (CellLine.Regions chunk) (state_of self.new) (W.contents writer.old) (W.contents writer.new)) }
        ensures fault { IfErr result IsOfWrite }
    {
        if print_regions(alloc, &self.cell, &chunk, writer)? {
            Ok(LineEnd::Done)
        } else {
            Ok(LineEnd::Bad)
        }
    }

    /// Prints a chunk's replicas.
    fn run_replicas<W: Write>(
        &mut self,
        alloc: Global,
        chunk: FileChunk,
        writer: &mut W,
    ) -> Result<LineEnd, ScriptFault>
        ensures ends { IfOk result (Ends C.meaning (state_of self.old) (CellLine.Replicas chunk) (state_of self.new) (W.contents writer.old) (W.contents writer.new)) }
        ensures fault { IfErr result IsOfWrite }
    {
        if print_replicas(alloc, &self.cell, &chunk, writer)? {
            Ok(LineEnd::Done)
        } else {
            Ok(LineEnd::Bad)
        }
    }

    /// Runs what a line asks for, and tells how it ended. `NoMemory`: memory was refused outside the cell's own steps. `Write`: the
    /// writer failed.
    pub fn run<W: Write>(
        &mut self,
        alloc: Global,
        line: CellLine,
        writer: &mut W,
    ) -> Result<LineEnd, ScriptFault>
        ensures ends { IfOk result (Ends C.meaning (state_of self.old) line (state_of self.new) (W.contents writer.old) (W.contents writer.new)) }
        ensures fault { IfErr result IsOfWrite }
    {
        match line {
            CellLine::Nothing => Ok(LineEnd::Done),
            CellLine::Call(asked) => self.run_call(asked, writer),
            CellLine::Start(asked) => self.run_start(asked, writer),
            CellLine::Finish => self.run_finish(writer),
            CellLine::Wait(count) => self.run_wait(count, writer),
            CellLine::Hold(matter) => self.run_hold(matter),
            CellLine::Free => self.run_free(alloc, writer),
            CellLine::Twice(matter) => self.run_twice(matter),
            CellLine::Cut(node) => self.run_cut(node),
            CellLine::Join(node) => self.run_join(node),
            CellLine::Restart(node) => self.run_restart(node, writer),
            CellLine::Rebase => self.run_rebase(),
            CellLine::Fuse { node, calls, torn } => self.run_fuse(node, calls, torn, writer),
            CellLine::Rot {
                server,
                chunk,
                place,
                byte,
            } => self.run_rot(alloc, server, chunk, place, byte, writer),
            CellLine::Regions(chunk) => self.run_regions(alloc, chunk, writer),
            CellLine::Replicas(chunk) => self.run_replicas(alloc, chunk, writer),
        }
    }
}
