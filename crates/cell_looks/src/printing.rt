//! Prints lines, and the regions of a file's chunks.

ghost use Rattle.std.specs.Prelude.{◌++◌, ◌∷◌, [], IfErr, IfSome, OnOk, map};
ghost use Rattle.std.specs.Io.KnownBytes.{Appends, Keeps};
ghost use Rattle.script.specs.ScriptFaults.{IsOfWrite};
ghost use Rattle.cell_looks.specs.ToldLines.{told_regions};

use relaxed_file::region::Region;
use script::chunk_lines::RegionsLine;
use script::script_fault::ScriptFault;
use std::fmt;
use std::io::Write;

/// Prints the regions of each chunk, a line for each.
pub fn print_regions<W: Write>(chunks: &[Vec<Region>], writer: &mut W) -> Result<(), ScriptFault>
    ensures printed { OnOk result (Appends (W.contents writer.old) (W.contents writer.new) (told_regions (map (λ v. v.items) chunks.now))) }
    ensures fault { IfErr result IsOfWrite }
{
    for before in 0..chunks.len() {
        let line = RegionsLine(chunks[before].as_slice());
        print_line(&line, writer)?;
    }
    flush(writer)?;
    Ok(())
}

/// Prints a line, and a line feed behind it.
pub fn print_line<L: fmt::Display, W: Write>(line: &L, writer: &mut W) -> Result<(), ScriptFault>
    ensures printed { OnOk result (IfSome (L.output line.now) (λ text. Appends (W.contents writer.old) (W.contents writer.new) (text ++ 10 ∷ []))) }
    ensures fault { IfErr result IsOfWrite }
{
    writeln!(writer, "{line}").map_err(|e| ScriptFault::of_write(&e))
}

/// Has the writer write what waits in it.
pub fn flush<W: Write>(writer: &mut W) -> Result<(), ScriptFault>
    ensures keeps { OnOk result (Keeps (W.contents writer.old) (W.contents writer.new)) }
    ensures fault { IfErr result IsOfWrite }
{
    writer.flush().map_err(|e| ScriptFault::of_write(&e))
}
