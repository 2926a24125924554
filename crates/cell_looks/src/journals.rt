//! The journals of a cell that was parked.

ghost use Rattle.std.specs.Prelude.{◌≡◌, map, IfOk};
ghost use Rattle.cell_seats.specs.Journals.{all_in, AreBehind};

use cell_seats::journal::Journal;
use gfs_types::no_memory::NoMemory;
use std::alloc::Global;

/// A journal and those before it, the last one first.
pub fn journals_of(alloc: Global, journal: &Journal) -> Result<Vec<&Journal>, NoMemory>
    ensures all { IfOk result (λ l. map (λ j. j.now.now) l.items ≡ all_in journal.now) }
    ensures behind { IfOk result (λ _. AreBehind journal.now.now.cell journal.now.earlier) }
{
    journal.history();
    let mut journals = Vec::new(alloc);
    let mut here = journal;
    for _ in 0..usize::MAX {
        journals.push(here)?;
        match here.base() {
            Some(base) => here = base,
            None => return Ok(journals),
        }
    }
    Err(NoMemory)
}
