//! The steps on the words of a list's log.

ghost use Rattle.std.specs.Prelude.{◌≡◌, ◌++◌, ◌∷◌, [], List, IfSome};
ghost use mathlib.Core.List.{IsPrefix};
ghost use Rattle.logbook.specs.Pages.{may_write};
ghost use Rattle.cell_journal.specs.Log.{IsTurn, written_of, items_of, last_next};
ghost use Rattle.cell_journal.specs.ListRules.{named, Keeps};
ghost use Rattle.cell_journal.specs.declared.note.Note.{Note};
ghost use Rattle.cell_journal.specs.declared.note.Note.TheVariants.{Adds, Ends};

use crate::list_rule::{Append, Come, End, ListRule, ListWord, LogPrefix, Make, Nothing};
use crate::note::Note;
use logbook::{Offer, Pen};

// Makes a cell for the next turn. Its key stands in the last note seen.
pub(crate) fn make<T>(head: &ListWord<T>, seen: &mut LogPrefix<T>) -> Pen
    requires { head.now ≡ named 0 seen.old.book }
    ensures pen { (result.book ≡ seen.old.book) × (result.nib.right ≡ may_write) × (result.nib.key ≡ last_next seen.new.log) }
    ensures seen { (seen.new.book ≡ seen.old.book) × IsPrefix seen.old.log seen.new.log }
{
    let mut offer: Offer<Note<T>, u64, ListRule, Nothing> = seen.plain::<Nothing, u64, Make>(&0);
    let mut pen = seen.no_pen();
    head.compare_exchange::<Make, Nothing>(0, 0, seen, &mut offer, &mut pen);
    ListWord::<T>::tracked(0, &mut pen);
    pen
}

// The writer comes, if none came before.
pub(crate) fn come<T>(count: &ListWord<T>, seen: &mut LogPrefix<T>) -> Option<Pen>
    requires { count.now ≡ named 1 seen.old.book }
    ensures seen { (seen.new.book ≡ seen.old.book) × IsPrefix seen.old.log seen.new.log }
    ensures pen { IfSome result (λ p. (p.book ≡ seen.old.book) × (p.nib.right ≡ may_write) × IsTurn p.nib.key (written_of seen.new.log) × (items_of seen.new.log ≡ [])) }
{
    let mut offer: Offer<Note<T>, u64, ListRule, Nothing> = seen.plain::<Nothing, u64, Make>(&0);
    let mut pen = seen.no_pen();
    let found = count.compare_exchange::<Come, Nothing>(0, 1, seen, &mut offer, &mut pen);
    if found != 0 {
        return None;
    }
    ListWord::<T>::tracked(0, &mut pen);
    Some(pen)
}

// Adds an item.
pub(crate) fn add<T>(head: &ListWord<T>, seen: &mut LogPrefix<T>, pen: &mut Pen, item: &T)
    requires books { (head.now ≡ named 0 seen.old.book) × (pen.old.book ≡ seen.old.book) × (pen.old.nib.right ≡ may_write) }
    requires turn { (xs : List (Note T)) × IsPrefix xs seen.old.log × IsTurn pen.old.nib.key (written_of xs) }
    ensures book { seen.new.book ≡ seen.old.book }
    ensures log { (log : List (Note T)) × IsPrefix seen.old.log log × Keeps pen.old.nib.key log × (seen.new.log ≡ log ++ Adds item.now (last_next seen.old.log) ∷ []) }
{
    let mut offer: Offer<Note<T>, u64, ListRule, Nothing> = seen.plain::<Nothing, T, Append>(item);
    head.compare_exchange::<Append, Nothing>(0, 0, seen, &mut offer, pen);
}

// Ends the list.
pub(crate) fn end<T>(head: &ListWord<T>, seen: &mut LogPrefix<T>, pen: &mut Pen)
    requires books { (head.now ≡ named 0 seen.old.book) × (pen.old.book ≡ seen.old.book) × (pen.old.nib.right ≡ may_write) }
    requires turn { (xs : List (Note T)) × IsPrefix xs seen.old.log × IsTurn pen.old.nib.key (written_of xs) }
    ensures book { seen.new.book ≡ seen.old.book }
    ensures log { (log : List (Note T)) × IsPrefix seen.old.log log × Keeps pen.old.nib.key log × (seen.new.log ≡ log ++ Ends ∷ []) }
{
    let mut offer: Offer<Note<T>, u64, ListRule, Nothing> = seen.plain::<Nothing, u64, End>(&0);
    head.compare_exchange::<End, Nothing>(0, 0, seen, &mut offer, pen);
}
