//! The list.

ghost use Rattle.std.specs.Prelude.{◌≡◌, List, [], ◌∷◌, ◌++◌};
ghost use Rattle.std.specs.Borrow.{ftrue};

use std::marker::{Model, PhantomData};

/// A list of values. A clause reads them as `items`. By itself it tells nothing of the program: whoever keeps it states in an invariant
/// how its items and what is there at run time belong together.
#[derive(Drop)]
pub struct GhostList<T> {
    of: PhantomData<T>,
    pub ghost items: { List T },
}

impl<T> Model for GhostList<T> {
    ghost also_owns = { λ _. ftrue };
}

// It owns nothing.
unsafe impl<T: Send> Send for GhostList<T> {}

impl<T> GhostList<T> {
    /// The empty list.
    pub fn new() -> GhostList<T>
        ensures { result.items ≡ [] }
    {
        GhostList { of: PhantomData }
    }

    /// These items, and this one behind them.
    pub fn and(&self, item: &T) -> GhostList<T>
        ensures { result.items ≡ self.now.items ++ item.now ∷ [] }
    {
        GhostList { of: PhantomData }
    }
}
