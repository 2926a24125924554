//! Reads the lines that are served.

ghost use Rattle.std.specs.Prelude.{◌≡◌, ◌≤◌, ◌++◌, ◌∷◌, [], IfOk, OnOk, length, take};
ghost use Rattle.serve_lines.specs.Input.{ReadsWholeLine};

use script::lines::MAX_LINE;
use script::reading::next_byte;
use std::io::{self, ErrorKind, Read};

/// Reads a line into `line`, without its line feed, and tells whether there was one. Of a line that is too long it keeps one byte more than the
/// longest line has, and leaves out the rest.
pub fn read_whole_line<R: Read>(reader: &mut R, line: &mut Vec<u8>) -> io::Result<bool>
    ensures { IfOk result (ReadsWholeLine (R.remaining reader.old) (R.remaining reader.new) line.new.items) }
{
    line.clear();
    for _ in 0..u64::MAX {
        let Some(byte) = next_byte(reader)? else {
            return Ok(!line.is_empty());
        };
        if byte == b'\n' {
            return Ok(true);
        }
        keep(line, byte)?;
    }
    Err(io::Error::from(ErrorKind::Interrupted))
}

// Keeps one more byte of a line, if it isn't too long yet.
#[tactic(auto, using(crate::proofs::WholeLines::kept_more, crate::proofs::WholeLines::kept_as_it_was))]
fn keep(line: &mut Vec<u8>, byte: u8) -> io::Result<()>
    requires { length line.old.items ≤ 8193 }
    ensures { OnOk result (line.new.items ≡ take 8193 (line.old.items ++ byte ∷ [])) }
{
    if line.len() <= MAX_LINE {
        line.push(byte)?;
    }
    Ok(())
}
