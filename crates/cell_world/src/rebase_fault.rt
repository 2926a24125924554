//! Why a cell kept its messages.

ghost use Rattle.std.specs.Prelude.{Some};
ghost use Rattle.cell_world.specs.Rebasing.{rebase_fault_text};

use std::error::Error;
use std::fmt;

/// Why a cell kept its messages.
#[derive(Clone, Copy, Debug, PartialEq, Eq)]
pub enum RebaseFault {
    /// The moment is more than the clock bound behind the greatest one that a node was given.
    Clock,
    /// Memory was refused. Nothing asks for any today.
    NoMemory,
}

impl fmt::Display for RebaseFault {
    ghost output = { λ fault. Some (rebase_fault_text fault) };

    fn fmt<W: fmt::Write>(&self, f: &mut fmt::Formatter<W>) -> fmt::Result {
        match self {
            RebaseFault::Clock => write!(f, "the clock went back"),
            RebaseFault::NoMemory => write!(f, "no memory"),
        }
    }
}

impl Error for RebaseFault {}
