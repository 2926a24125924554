//! The list and its writer.

ghost use Rattle.std.specs.Prelude.{◌≡◌, ◌++◌, ◌∷◌, [], IfSome};
ghost use Rattle.cell_journal.specs.Log.{listed};
ghost use Rattle.cell_journal.specs.ListRules.{named};

use crate::list_beginning::{Beginning, WholeList};
use crate::list_rule::{ListWord, LogPrefix};
use crate::list_steps::{add, come, end, make};
use logbook::{Pen, Seen, Start};
use std::marker::Model;

/// A list that its one writer lengthens. It exists in proofs alone and takes one word of memory.
#[derive(Drop)]
pub struct GrowingList<T> {
    head: ListWord<T>,
    seen: LogPrefix<T>,
    pen: Pen,
}

impl<T> Model for GrowingList<T> {
    ghost use Rattle.std.specs.Prelude.{◌≡◌};
    ghost use Rattle.logbook.specs.Pages.{may_write};
    ghost use Rattle.cell_journal.specs.Log.{Listed, listed, IsTurn, written_of, items_of};
    ghost use Rattle.cell_journal.specs.ListRules.{named};

    ghost Value = { Listed T };

    ghost view = { λ g. listed g.seen.book (items_of g.seen.log) };

    ghost invariant = { λ g. (g.head ≡ named 0 g.seen.book) × (g.pen.book ≡ g.seen.book) × (g.pen.nib.right ≡ may_write) × IsTurn g.pen.nib.key (written_of g.seen.log) };
}

impl<T> GrowingList<T> {
    /// An empty list, under a name of its own. A new log has no writer yet, so there is one.
    pub fn new() -> Option<GrowingList<T>>
        ensures { IfSome result (λ g. g.items ≡ []) }
    {
        let (mut seen, mut first, mut second): (LogPrefix<T>, Pen, Pen) = Seen::open(
            Start::alone(),
            0,
            0,
        );
        let head = ListWord::<T>::tracked(0, &mut first);
        let count = ListWord::<T>::tracked(0, &mut second);
        let pen = come(&count, &mut seen)?;
        Some(GrowingList { head, seen, pen })
    }

    /// One more item at the end.
    pub fn push(&mut self, item: &T)
        ensures { self.new ≡ listed self.old.name (self.old.items ++ item.now ∷ []) }
    {
        let next = make(&self.head, &mut self.seen);
        add(&self.head, &mut self.seen, &mut self.pen, item);
        self.pen = next;
    }

    /// The list as it is now.
    pub fn beginning(&self) -> Beginning<T>
        ensures { result ≡ self.now }
    {
        Beginning {
            seen: self.seen.again(),
        }
    }

    /// The whole list, to which nothing is added any more.
    pub fn close(self) -> WholeList<T>
        ensures { result ≡ self }
    {
        let GrowingList {
            head,
            mut seen,
            mut pen,
        } = self;
        end(&head, &mut seen, &mut pen);
        WholeList { seen }
    }
}
