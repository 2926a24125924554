//! Runs a script, line by line.

ghost use Rattle.std.specs.Prelude.{◌≡◌, IfErr, OnOk};
ghost use Rattle.cell_simulator.specs.Shown.{state_of};
ghost use Rattle.cell_simulator.specs.Scripts.{RunsScript, RunsText, StopsOn, StopsWith};

use crate::cell::SimulatedCell;
use crate::lines::LineEnd;
use crate::simulator::Simulator;
use script::cell_lines::parse;
use script::reading::read_line;
use script::script_fault::ScriptFault;
use std::alloc::Global;
use std::io::{BufRead, Write};

/// Runs the line of this number.
fn run_line<C: SimulatedCell, W: Write>(
    alloc: Global,
    simulator: &mut Simulator<C>,
    number: u64,
    text: &[u8],
    writer: &mut W,
) -> Result<(), ScriptFault>
    ensures runs { OnOk result (RunsText C.meaning (state_of simulator.old) (state_of simulator.new) (W.contents writer.old) (W.contents writer.new) text.now) }
    ensures stops { IfErr result (StopsOn C.meaning (state_of simulator.old) (W.contents writer.old) (W.contents writer.new) number text.now) }
{
    let line = match parse(alloc, text) {
        Ok(line) => line,
        Err(fault) => return Err(ScriptFault::of_line(fault, number)),
    };
    match simulator.run(alloc, line, writer)? {
        LineEnd::Done => Ok(()),
        LineEnd::Bad => Err(ScriptFault::Line(number)),
        LineEnd::NoEnd => Err(ScriptFault::NoEnd(number)),
    }
}

/// Runs the lines of a script, and prints each answer when it comes, and a chunk's regions or replicas as they then stand. At a
/// fault the lines that were printed before stay printed, and no later line is run.
///
/// - `Line`: a line isn't in the language, names a node, a file or a chunk that isn't shown, is a call by a client whose last
///   call is open, or is past the greatest number of lines.
/// - `NoEnd`: a line needs too many rounds of ticks.
/// - `NoMemory`: memory was refused outside the cell's own steps.
/// - `Read`, `Write`: the reader or the writer failed.
pub fn run_lines<C: SimulatedCell, R: BufRead, W: Write>(
    alloc: Global,
    simulator: &mut Simulator<C>,
    reader: &mut R,
    writer: &mut W,
) -> Result<(), ScriptFault>
    ensures runs { OnOk result (RunsScript C.meaning (state_of simulator.old) (state_of simulator.new) (W.contents writer.old) (W.contents writer.new) (R.remaining reader.old)) }
    ensures stops { IfErr result (StopsWith C.meaning (state_of simulator.old) (R.remaining reader.old) (W.contents writer.old) (W.contents writer.new)) }
{
    let mut line = Vec::new(alloc);
    for number in 1..u64::MAX {
        match read_line(reader, &mut line) {
            Ok(true) => run_line(alloc, simulator, number, line.as_slice(), writer)?,
            Ok(false) => return Ok(()),
            Err(error) => return Err(ScriptFault::of_read(&error)),
        }
    }
    Err(ScriptFault::Line(u64::MAX))
}
