//! Reads the lines of a script.

ghost use Rattle.std.specs.Prelude.{IfOk};
ghost use Rattle.script.specs.Reading.{Gives, ReadsLine};

use crate::lines::MAX_LINE;
use std::io::{self, ErrorKind, Read};

/// The next byte, or none at the end. A read that was interrupted is done again; any other failure is told.
pub fn next_byte<R: Read>(reader: &mut R) -> io::Result<Option<u8>>
    ensures { IfOk result (Gives (R.remaining reader.old) (R.remaining reader.new)) }
{
    let mut byte = [0];
    for _ in 0..u64::MAX {
        match reader.read(&mut byte) {
            Ok(0) => return Ok(None),
            Ok(_) => return Ok(Some(byte[0])),
            Err(error) => {
                if error.kind() != ErrorKind::Interrupted {
                    return Err(error);
                }
            }
        }
    }
    Err(io::Error::from(ErrorKind::Interrupted))
}

/// Reads a line into `line`, without its line feed, and tells whether there was one. Of a line that is too long it reads one
/// byte more than the longest line has.
pub fn read_line<R: Read>(reader: &mut R, line: &mut Vec<u8>) -> io::Result<bool>
    ensures { IfOk result (ReadsLine (R.remaining reader.old) (R.remaining reader.new) line.new.items) }
{
    line.clear();
    while line.len() <= MAX_LINE {
        let Some(byte) = next_byte(reader)? else {
            return Ok(!line.is_empty());
        };
        if byte == b'\n' {
            return Ok(true);
        }
        line.push(byte)?;
    }
    Ok(true)
}
