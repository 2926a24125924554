//! New cells for scripts.

ghost use Rattle.std.specs.Prelude.{◌≡◌, Err, IfOk, IfErr, IsFalse};
ghost use Rattle.shell.specs.Cells.{IsNew, IsOfStart, are_in_range};

use crate::world::SimulatedWorld;
use cell_core::world::World;
use memory_nodes::start_fault::StartFault;
use script::options::Options;
use script::script_fault::ScriptFault;
use std::alloc::{Allocator, Global};

/// A cell over a log on a disk, and stores on disks.
pub type ScriptCell<A> = SimulatedWorld<A>;

/// A new cell, whose names lie in `A`.
///
/// - `Start`: a setting or a count is out of its range, or the first names have no room in `A`.
/// - `NoMemory`: memory was refused.
pub fn new_cell<A: Allocator + Clone>(
    alloc: Global,
    names: A,
    options: &Options,
) -> Result<ScriptCell<A>, ScriptFault>
    ensures new { IfOk result (λ cell. IsNew options.now cell.world) }
    ensures fault { IfErr result IsOfStart }
    ensures range { IsFalse (are_in_range options.now) → result ≡ Err ScriptFault.Start }
{
    match World::new(
        alloc,
        options.config,
        options.servers,
        options.clients,
        names,
    ) {
        Ok(world) => Ok(SimulatedWorld { world }),
        Err(StartFault::NoMemory) => Err(ScriptFault::NoMemory),
        Err(_) => Err(ScriptFault::Start),
    }
}
