//! Beginnings of a list.

ghost use Rattle.std.specs.Prelude.{◌≡◌, ◌≤◌, length};
ghost use mathlib.Core.List.{IsPrefix};

use crate::list_rule::LogPrefix;
use std::marker::Model;

/// A beginning of a list, under the list's name. It takes no memory.
#[derive(Drop)]
pub struct Beginning<T> {
    pub(crate) seen: LogPrefix<T>,
}

impl<T> Model for Beginning<T> {
    ghost use Rattle.cell_journal.specs.Log.{Listed, listed, items_of};

    ghost Value = { Listed T };

    ghost view = { λ b. listed b.seen.book (items_of b.seen.log) };
}

impl<T> Beginning<T> {
    /// The same beginning.
    pub fn again(&self) -> Beginning<T>
        ensures { result ≡ self.now }
    {
        Beginning {
            seen: self.seen.again(),
        }
    }
}

/// Of two beginnings of one list the shorter begins the longer.
pub fn meet<T>(one: &Beginning<T>, other: &Beginning<T>)
    requires { one.now.name ≡ other.now.name }
    ensures { length one.now.items ≤ length other.now.items → IsPrefix one.now.items other.now.items }
{
    let mut both = one.seen.again();
    both.learn(&other.seen);
}

/// A whole list, whose writer closed it.
#[derive(Drop)]
pub struct WholeList<T> {
    pub(crate) seen: LogPrefix<T>,
}

impl<T> Model for WholeList<T> {
    ghost use Rattle.cell_journal.specs.Log.{Listed, listed, items_of, written_of, IsOver};

    ghost Value = { Listed T };

    ghost view = { λ l. listed l.seen.book (items_of l.seen.log) };

    ghost invariant = { λ l. IsOver (written_of l.seen.log) };
}

impl<T> WholeList<T> {
    /// The whole list, as a beginning.
    pub fn beginning(&self) -> Beginning<T>
        ensures { result ≡ self.now }
    {
        Beginning {
            seen: self.seen.again(),
        }
    }
}

/// Each beginning of a list begins the whole list.
pub fn agree<T>(beginning: &Beginning<T>, whole: &WholeList<T>)
    requires { beginning.now.name ≡ whole.now.name }
    ensures { IsPrefix beginning.now.items whole.now.items }
{
    let mut both = beginning.seen.again();
    both.learn(&whole.seen);
}
