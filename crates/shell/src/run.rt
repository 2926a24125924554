//! Runs a script on a new cell.

ghost use Rattle.std.specs.Prelude.{◌≡◌, Err, IfErr, IsFalse, OnOk};
ghost use Rattle.shell.specs.Cells.{are_in_range};
ghost use Rattle.shell.specs.Scripts.{RunsOnNew, Stops};

use crate::making::{ScriptCell, new_cell};
use cell_simulator::cell::SimulatedCell;
use cell_simulator::run::run_lines;
use cell_simulator::simulator::Simulator;
use linked_list_allocator::LocalHeap;
use script::options::Options;
use script::script_fault::ScriptFault;
use std::alloc::Global;
use std::io::{BufRead, Write};

/// Runs a script on a new cell, and prints each answer when it comes, and a chunk's regions or replicas as they then stand.
///
/// The cell is made before the first line is read. At a fault the lines that were printed before stay printed, and no later
/// line is run.
///
/// - `Start`: a setting or a count of nodes is out of its range, or the first names find no room. Nothing was read or printed.
/// - `Line`: a line isn't in the language, names a node, a file or a chunk that isn't shown, is a call by a client whose last
///   call is open, or is past the greatest number of lines.
/// - `NoEnd`: a line needs too many rounds of ticks.
/// - `NoMemory`: memory was refused outside the cell's own steps.
/// - `Read`, `Write`: the reader or the writer failed.
pub fn run_script<R: BufRead, W: Write>(
    alloc: Global,
    options: &Options,
    reader: &mut R,
    writer: &mut W,
) -> Result<(), ScriptFault>
    ensures runs { OnOk result (RunsOnNew ⟦<ScriptCell<Global> as SimulatedCell>⟧.meaning (λ cell. cell.world) options.now (R.remaining reader.old) (W.contents writer.old) (W.contents writer.new)) }
    ensures stops { IfErr result (Stops ⟦<ScriptCell<Global> as SimulatedCell>⟧.meaning (λ cell. cell.world) options.now (R.remaining reader.old) (R.remaining reader.new) (W.contents writer.old) (W.contents writer.new)) }
    ensures range { IsFalse (are_in_range options.now) → result ≡ Err ScriptFault.Start }
{
    let cell = new_cell(alloc, alloc, options)?;
    let mut simulator = Simulator::new(alloc, cell);
    run_lines(alloc, &mut simulator, reader, writer)
}

/// A cell whose names lie in a region.
pub type RegionCell = ScriptCell<&'static LocalHeap>;

/// The same with the names in a region of so many bytes, in which nothing else of the cell lies. `Start` too where the cell can't be made.
pub fn run_script_in_region<R: BufRead, W: Write>(
    alloc: Global,
    bytes: u64,
    options: &Options,
    reader: &mut R,
    writer: &mut W,
) -> Result<(), ScriptFault>
    ensures runs { OnOk result (RunsOnNew ⟦<RegionCell as SimulatedCell>⟧.meaning (λ cell. cell.world) options.now (R.remaining reader.old) (W.contents writer.old) (W.contents writer.new)) }
    ensures stops { IfErr result (Stops ⟦<RegionCell as SimulatedCell>⟧.meaning (λ cell. cell.world) options.now (R.remaining reader.old) (R.remaining reader.new) (W.contents writer.old) (W.contents writer.new)) }
    ensures range { IsFalse (are_in_range options.now) → result ≡ Err ScriptFault.Start }
{
    let Ok(heap) = LocalHeap::new(alloc, bytes as usize) else {
        return Err(ScriptFault::Start);
    };
    let Ok(cell) = new_cell(alloc, &heap, options) else {
        return Err(ScriptFault::Start);
    };
    let mut simulator = Simulator::new(alloc, cell);
    run_lines(alloc, &mut simulator, reader, writer)
}
