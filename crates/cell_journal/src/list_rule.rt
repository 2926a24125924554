//! The rule of a list's log, and its steps.

use crate::note::Note;
use logbook::{Gain, Plain, Play, Rule, Seen, Word};

/// The rule.
pub struct ListRule;

impl<T> Rule<Note<T>, u64> for ListRule {
    ghost use Rattle.std.specs.Prelude.{[]};
    ghost use base.Fml.{ftrue};
    ghost use Rattle.cell_journal.specs.ListRules.{IsKept};

    ghost holds = { λ cells log. IsKept cells log };

    ghost first = { [] };

    ghost hinted = { λ n log. Unit {0} };

    ghost shows = { λ log. [] };

    ghost keeps = { λ names log. ftrue };

    ghost moves = { λ ask before after answer. Unit {0} };
}

/// Callers trade nothing.
pub struct Nothing;

impl<T> Gain<Note<T>, u64> for Nothing {
    ghost use base.Fml.{ftrue};

    ghost after = { λ names about answer. ftrue };
}

/// A step that makes a cell for the writer's next turn.
pub struct Make;

impl<T> Play<Note<T>, u64> for Make {
    ghost use Rattle.cell_journal.specs.ListRules.{Makes};

    ghost then = { Makes };
}

impl<T> Plain<u64, Note<T>, u64> for Make {
    ghost use Rattle.std.specs.Prelude.{None};
    ghost use Rattle.cell_journal.specs.declared.note.Note.TheVariants.{Fresh};

    ghost ask = { λ k. Fresh k };

    ghost state = { λ k. None };
}

/// A step by which the writer comes.
pub struct Come;

impl<T> Play<Note<T>, u64> for Come {
    ghost use Rattle.cell_journal.specs.ListRules.{Comes};

    ghost then = { Comes };
}

/// A step that adds an item.
pub struct Append;

impl<T> Play<Note<T>, u64> for Append {
    ghost use Rattle.cell_journal.specs.ListRules.{AddsIt};

    ghost then = { AddsIt };
}

impl<T> Plain<T, Note<T>, u64> for Append {
    ghost use Rattle.std.specs.Prelude.{None};
    ghost use Rattle.cell_journal.specs.declared.note.Note.TheVariants.{Adds};

    ghost ask = { λ x. Adds x 0 };

    ghost state = { λ x. None };
}

/// A step that ends the list.
pub struct End;

impl<T> Play<Note<T>, u64> for End {
    ghost use Rattle.cell_journal.specs.ListRules.{AddsIt};

    ghost then = { AddsIt };
}

impl<T> Plain<u64, Note<T>, u64> for End {
    ghost use Rattle.std.specs.Prelude.{None};
    ghost use Rattle.cell_journal.specs.declared.note.Note.TheVariants.{Ends};

    ghost ask = { λ x. Ends };

    ghost state = { λ x. None };
}

/// A prefix of a list's log.
pub type LogPrefix<T> = Seen<Note<T>, u64, ListRule>;

/// A word of a list.
pub type ListWord<T> = Word<Note<T>, u64, ListRule>;
