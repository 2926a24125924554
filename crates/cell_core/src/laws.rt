//! Laws of each cell to which lawful events led, as each `World` is.

ghost use Rattle.cell_core.specs.CellLaws.{GrantsVersionsOnce, HasOneLasting, HasTreeOfNames, LogHasAll};
ghost use Rattle.cell_core.specs.Standing.{HasReachedWorld};
ghost use Rattle.cell_world.specs.Held.{HeldCell};

/// A version of a chunk is granted at most once, over restarts and stops too.
pub fn versions_are_granted_once()
    ensures { (h : HeldCell) → GrantsVersionsOnce h }
{}

/// Where clocks were kept, one server at most holds a lease of a chunk that ends after the greatest moment that was given.
pub fn one_lease_lasts()
    ensures { (h : HeldCell) → HasOneLasting h }
{}

/// The names of a master that is up are a tree.
pub fn names_are_a_tree()
    ensures { (h : HeldCell) → HasReachedWorld h → HasTreeOfNames h }
{}

/// The log, replayed, has the names, files and chunks of a master that is up, but for the ends of leases, chunks' shapes and copies under way.
pub fn log_has_all()
    ensures { (h : HeldCell) → HasReachedWorld h → LogHasAll h }
{}
