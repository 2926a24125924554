//! Why a script is not run to its end.

ghost use Rattle.std.specs.Prelude.{◌≡◌, ◌≢◌, Some};
ghost use Rattle.std.specs.IoError.{error_kind};
ghost use Rattle.script.specs.ScriptFaults.{IsOfRead, IsOfWrite, fault_text, line_fault};
ghost use Rattle.script.specs.declared.script_fault.ScriptFault.TheVariants.{NoMemory as OutOfMemory};

use crate::fault::LineFault;
use gfs_types::no_memory::NoMemory;
use std::error::Error;
use std::fmt;
use std::io::{self, ErrorKind};

/// Why a script is not run to its end.
#[derive(Clone, Copy, Debug, PartialEq, Eq)]
pub enum ScriptFault {
    /// The line of this number isn't in the language, or names a node, a file or a chunk that the cell doesn't show, or is a call by a client
    /// whose last call is open, or is past the greatest number of lines. Lines count from 1.
    Line(u64),
    /// The line of this number needs more than a million rounds of ticks.
    NoEnd(u64),
    /// There is no such cell: a setting is out of its range, or a count of nodes, or the first names found no room; or one on threads could not
    /// start, go on, or be looked at.
    Start,
    /// Memory was refused outside the cell's own steps, or regions were asked for of a cell on threads whose entries were let go.
    NoMemory,
    /// The reader failed.
    Read,
    /// The writer failed.
    Write,
}

impl fmt::Display for ScriptFault {
    ghost output = { λ fault. Some (fault_text fault) };

    fn fmt<W: fmt::Write>(&self, f: &mut fmt::Formatter<W>) -> fmt::Result {
        match self {
            ScriptFault::Line(number) => write!(f, "line {number}: bad line"),
            ScriptFault::NoEnd(number) => write!(f, "line {number}: no end"),
            ScriptFault::Start => write!(f, "cannot start"),
            ScriptFault::NoMemory => write!(f, "no memory"),
            ScriptFault::Read => write!(f, "cannot read"),
            ScriptFault::Write => write!(f, "cannot write"),
        }
    }
}

impl Error for ScriptFault {}

impl From<NoMemory> for ScriptFault {
    ghost from_gives = { λ _ fault. fault ≡ OutOfMemory };

    fn from(_fault: NoMemory) -> ScriptFault {
        ScriptFault::NoMemory
    }
}

impl ScriptFault {
    /// The fault of the line of this number.
    pub fn of_line(fault: LineFault, number: u64) -> ScriptFault
        ensures { result ≡ line_fault fault number }
    {
        match fault {
            LineFault::Bad => ScriptFault::Line(number),
            LineFault::NoMemory => ScriptFault::NoMemory,
        }
    }

    /// The fault of a reader.
    pub fn of_read(error: &io::Error) -> ScriptFault
        ensures memory { error_kind error.now ≡ ErrorKind.OutOfMemory → result ≡ ScriptFault.NoMemory }
        ensures other { error_kind error.now ≢ ErrorKind.OutOfMemory → result ≡ ScriptFault.Read }
        ensures either { IsOfRead result }
    {
        match error.kind() {
            ErrorKind::OutOfMemory => ScriptFault::NoMemory,
            _ => ScriptFault::Read,
        }
    }

    /// The fault of a writer.
    pub fn of_write(error: &io::Error) -> ScriptFault
        ensures memory { error_kind error.now ≡ ErrorKind.OutOfMemory → result ≡ ScriptFault.NoMemory }
        ensures other { error_kind error.now ≢ ErrorKind.OutOfMemory → result ≡ ScriptFault.Write }
        ensures either { IsOfWrite result }
    {
        match error.kind() {
            ErrorKind::OutOfMemory => ScriptFault::NoMemory,
            _ => ScriptFault::Write,
        }
    }
}
