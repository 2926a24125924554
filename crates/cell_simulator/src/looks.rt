//! Looks at a chunk, and what goes by one.

ghost use Rattle.std.specs.Prelude.{◌≡◌, IfOk, IfErr, IfSome, IsFalse, OnOk, true};
ghost use Rattle.std.specs.Option.{is_some};
ghost use Rattle.std.specs.Io.KnownBytes.{Appends, Keeps};
ghost use Rattle.script.specs.ScriptFaults.{IsOfWrite};
ghost use Rattle.cell_simulator.specs.Shown.{handle_shown, regions_shown, replicas_shown};

use crate::cell::SimulatedCell;
use crate::printing::print_line;
use gfs_types::ids::Handle;
use gfs_types::no_memory::NoMemory;
use script::chunk_lines::{RegionsLine, ReplicasLine};
use script::lines::FileChunk;
use script::script_fault::ScriptFault;
use std::alloc::Global;
use std::io::Write;

/// Prints the regions of a chunk, and tells whether the master shows such a file and chunk.
pub fn print_regions<C: SimulatedCell, W: Write>(
    alloc: Global,
    cell: &C,
    chunk: &FileChunk,
    writer: &mut W,
) -> Result<bool, ScriptFault>
    ensures there { IfOk result (λ is_there. is_there ≡ is_some (regions_shown C.meaning cell.now chunk.now)) }
    ensures none { IfOk result (λ is_there. IsFalse is_there → Keeps (W.contents writer.old) (W.contents writer.new)) }
    ensures printed { OnOk result (IfSome (regions_shown C.meaning cell.now chunk.now) (λ text. Appends (W.contents writer.old) (W.contents writer.new) text)) }
    ensures fault { IfErr result IsOfWrite }
{
    let Some(file) = cell.file(&chunk.path) else {
        return Ok(false);
    };
    let Some(regions) = cell.regions(alloc, file, chunk.index)? else {
        return Ok(false);
    };
    print_line(&RegionsLine(regions.as_slice()), writer)?;
    Ok(true)
}

/// Prints the handle and the replicas of a chunk, and tells whether the master shows such a file and chunk.
pub fn print_replicas<C: SimulatedCell, W: Write>(
    alloc: Global,
    cell: &C,
    chunk: &FileChunk,
    writer: &mut W,
) -> Result<bool, ScriptFault>
    ensures there { IfOk result (λ is_there. is_there ≡ is_some (replicas_shown C.meaning cell.now chunk.now)) }
    ensures none { IfOk result (λ is_there. IsFalse is_there → Keeps (W.contents writer.old) (W.contents writer.new)) }
    ensures printed { OnOk result (IfSome (replicas_shown C.meaning cell.now chunk.now) (λ text. Appends (W.contents writer.old) (W.contents writer.new) text)) }
    ensures fault { IfErr result IsOfWrite }
{
    let Some(file) = cell.file(&chunk.path) else {
        return Ok(false);
    };
    let Some((handle, replicas)) = cell.replicas(alloc, file, chunk.index)? else {
        return Ok(false);
    };
    let line = ReplicasLine {
        handle,
        replicas: replicas.as_slice(),
    };
    print_line(&line, writer)?;
    Ok(true)
}

/// The handle of a chunk, if the master shows such a file and chunk.
pub fn handle<C: SimulatedCell>(
    alloc: Global,
    cell: &C,
    chunk: &FileChunk,
) -> Result<Option<Handle>, NoMemory>
    ensures { IfOk result (λ found. found ≡ handle_shown C.meaning cell.now chunk.now) }
{
    let Some(file) = cell.file(&chunk.path) else {
        return Ok(None);
    };
    let Some((handle, _)) = cell.replicas(alloc, file, chunk.index)? else {
        return Ok(None);
    };
    Ok(Some(handle))
}
