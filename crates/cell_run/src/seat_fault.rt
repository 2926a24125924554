//! Why there is no client of a running cell.

ghost use Rattle.std.specs.Prelude.{Some};
ghost use Rattle.cell_run.specs.SeatFaults.{fault_text};

use std::error::Error;
use std::fmt;

/// Why there is no seat.
#[derive(Clone, Copy, Debug, PartialEq, Eq)]
pub enum SeatFault {
    /// As many as there may be were made.
    Many,
    /// The cell was closed. It is closed by giving it away, so this never comes.
    Closed,
    NoMemory,
}

impl fmt::Display for SeatFault {
    ghost output = { λ fault. Some (fault_text fault) };

    fn fmt<W: fmt::Write>(&self, f: &mut fmt::Formatter<W>) -> fmt::Result {
        match self {
            SeatFault::Many => write!(f, "no more clients"),
            SeatFault::Closed => write!(f, "closed"),
            SeatFault::NoMemory => write!(f, "no memory"),
        }
    }
}

impl Error for SeatFault {}
