//! One more in a list.

ghost use Rattle.std.specs.Prelude.{◌≡◌, ◌++◌, ◌∷◌, [], OnOk};

use gfs_types::no_memory::NoMemory;

/// One more, behind the others. Where memory is refused it is dropped.
pub fn keep<T: Drop>(all: &mut Vec<T>, one: T) -> Result<(), NoMemory>
    ensures { OnOk result (all.new.items ≡ all.old.items ++ one ∷ []) }
{
    match all.push(one) {
        Ok(()) => Ok(()),
        Err(_) => Err(NoMemory),
    }
}
