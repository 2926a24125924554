//! Why nothing is told of a parked cell.

ghost use Rattle.std.specs.Prelude.{◌≡◌};
ghost use Rattle.cell_looks.specs.declared.look_fault.LookFault.TheVariants.{NoMemory as OutOfMemory};

use gfs_types::no_memory::NoMemory;

/// Why nothing is told.
#[derive(Clone, Copy, Debug, PartialEq, Eq)]
pub enum LookFault {
    /// The master is down, so that no world says which chunks a file has.
    Down,
    /// Of the cell's history some entries were let go.
    Partial,
    /// Memory was refused.
    NoMemory,
}

impl From<NoMemory> for LookFault {
    ghost from_gives = { λ _ fault. fault ≡ OutOfMemory };

    fn from(_fault: NoMemory) -> LookFault {
        LookFault::NoMemory
    }
}
