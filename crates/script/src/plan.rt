//! A script for a running cell: all its lines are looked at before the first is run.

ghost use Rattle.std.specs.Prelude.{◌≡◌, ◌+◌, ◌<◌, ◌^◌, Some, IfOk, IfErr, IfSome};
ghost use Rattle.script.specs.Scripts.{asked_on, AreReadLines, IsBadLine, HasFault};

use crate::live_lines::{LiveLine, parse};
use crate::reading::read_line;
use crate::script_fault::ScriptFault;
use std::alloc::Global;
use std::io::Read;

/// What the lines of a script ask for, which name no client but the first so many. Each is looked at as it comes: behind a bad one
/// nothing is read.
///
/// - `Line`: the first line that isn't in the language, or names another client.
/// - `NoMemory`: memory was refused.
/// - `Read`: the reader failed.
pub fn read_script<R: Read>(
    alloc: Global,
    clients: u64,
    reader: &mut R,
) -> Result<Vec<LiveLine>, ScriptFault>
    ensures lines { IfOk result (λ v. IfSome (R.remaining reader.old) (λ script. AreReadLines clients script v.items)) }
    ensures fault { IfErr result (HasFault clients (R.remaining reader.old)) }
{
    let mut all = Vec::new(alloc);
    let mut text = Vec::new(alloc);
    for before in 0..u64::MAX {
        match read_line(reader, &mut text) {
            Ok(true) => {
                let line = line_asked(alloc, clients, before, text.as_slice())?;
                if all.push(line).is_err() {
                    return Err(ScriptFault::NoMemory);
                }
            }
            Ok(false) => return Ok(all),
            Err(error) => return Err(ScriptFault::of_read(&error)),
        }
    }
    // No memory holds so many lines.
    Err(ScriptFault::NoMemory)
}

// What the line asks for that stands behind so many others.
fn line_asked(
    alloc: Global,
    clients: u64,
    before: u64,
    text: &[u8],
) -> Result<LiveLine, ScriptFault>
    requires few { before + 1 < 2 ^ 64 }
    ensures line { IfOk result (λ line. asked_on clients text.now ≡ Some line) }
    ensures fault { IfErr result (IsBadLine clients text.now (before + 1)) }
{
    let number = before + 1;
    match parse(alloc, text) {
        Ok(line) => {
            if line.is_for(clients) {
                Ok(line)
            } else {
                Err(ScriptFault::Line(number))
            }
        }
        Err(fault) => Err(ScriptFault::of_line(fault, number)),
    }
}
