//! How the cell of a script ends: it is closed, and looked at before where that is wanted.

ghost use Rattle.std.specs.Prelude.{◌≡◌, true, map, is_some, IfOk, IfErr, IsTrue};
ghost use Rattle.std.specs.Option.{option_copied};
ghost use Rattle.protocol.specs.World.{WorldState};
ghost use Rattle.cell_looks.specs.RunFaults.{IsOfRun};
ghost use Rattle.cell_looks.specs.EndedWorlds.{AreRegionsOf, IsHistoryWorld, regions_named};

use crate::look_fault::LookFault;
use crate::looks::Looks;
use cell_run::cell::Cell;
use cell_run::park_fault::ParkFault;
use cell_run::parked::Parked;
use cell_seats::journal::Journal;
use gfs_types::path::Path;
use relaxed_file::region::Region;
use script::script_fault::ScriptFault;
use std::alloc::Global;
use std::sync::Wait;
use std::thread::Threads;
use std::time::Clock;

/// The journal of a cell that was closed, and the regions that were asked for, of each chunk of a file.
#[derive(Drop)]
pub struct Ended {
    pub journal: Journal,
    pub regions: Vec<Vec<Region>>,
}

/// Closes a cell. Where a path is given the regions of its file are looked up, as the whole history left them; of one that names no file, or while the master is down, there are none. Faults
/// come only where a path is given.
///
/// - `Start`: clocks were not kept.
/// - `NoMemory`: memory was refused, or of the history some entries were let go and the file has a chunk.
pub fn end<R: Threads + Wait + Clock>(
    rt: &R,
    alloc: Global,
    cell: Cell,
    path: Option<&Path>,
) -> Result<Ended, ScriptFault>
    ensures cell { IfOk result (λ e. e.journal.now.cell ≡ cell.of) }
    ensures over { IfOk result (λ e. e.journal.now.is_over ≡ true) }
    ensures regions { IfOk result (λ e. AreRegionsOf (option_copied path.entry) e.journal.now (map (λ v. v.items) e.regions.items)) }
    ensures fault { IfErr result IsOfRun }
    ensures wanted { IfErr result (λ _. IsTrue (is_some (option_copied path.entry))) }
{
    match path {
        Some(path) => end_looked(rt, alloc, cell, path),
        None => Ok(Ended {
            journal: cell.close(rt),
            regions: Vec::new(alloc),
        }),
    }
}

fn end_looked<R: Threads + Wait + Clock>(
    rt: &R,
    alloc: Global,
    cell: Cell,
    path: &Path,
) -> Result<Ended, ScriptFault>
    ensures cell { IfOk result (λ e. e.journal.now.cell ≡ cell.of) }
    ensures over { IfOk result (λ e. e.journal.now.is_over ≡ true) }
    ensures regions { IfOk result (λ e. (w : WorldState) × IsHistoryWorld e.journal.now w × (map (λ v. v.items) e.regions.items ≡ regions_named w path.now)) }
    ensures fault { IfErr result IsOfRun }
{
    let parked = park_alone(rt, alloc, cell)?;
    let looked = regions_of_file(alloc, &parked, path);
    let journal = parked.close();
    match looked {
        Ok(regions) => Ok(Ended { journal, regions }),
        Err(_) => Err(ScriptFault::NoMemory),
    }
}

// Parks a cell whose clients make no more calls.
fn park_alone<R: Threads + Wait + Clock>(
    rt: &R,
    alloc: Global,
    cell: Cell,
) -> Result<Parked, ScriptFault>
    ensures cell { IfOk result (λ p. p.journal.cell ≡ cell.of) }
    ensures fault { IfErr result IsOfRun }
{
    match cell.park(rt, Vec::new(alloc)) {
        Ok(parked) => Ok(parked),
        Err(ParkFault::NoMemory(cell, _)) => {
            cell.close(rt);
            Err(ScriptFault::NoMemory)
        }
        Err(ParkFault::Clock(_, _)) => Err(ScriptFault::Start),
    }
}

// The regions of each chunk of the file that a path names.
fn regions_of_file(
    alloc: Global,
    parked: &Parked,
    path: &Path,
) -> Result<Vec<Vec<Region>>, LookFault>
    ensures { IfOk result (λ all. (w : WorldState) × IsHistoryWorld parked.now.journal w × (map (λ v. v.items) all.items ≡ regions_named w path.now)) }
{
    let looks = Looks::at(alloc, parked)?;
    match looks.file(path) {
        Some(file) => looks.all_regions(alloc, file),
        None => Ok(Vec::new(alloc)),
    }
}
