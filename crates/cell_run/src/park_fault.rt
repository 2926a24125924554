//! Why a cell was not parked.

use crate::cell::Cell;
use cell_seats::journal::Journal;
use running_nodes::running_client::Seat;

/// Why a cell was not parked, with the seats that were handed in.
#[derive(Drop)]
pub enum ParkFault {
    /// Clocks were not kept. The cell was closed.
    Clock(Journal, Vec<Seat>),
    /// Memory was refused. The cell runs on.
    NoMemory(Cell, Vec<Seat>),
}
