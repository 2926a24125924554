//! The rule of the table in which the journal lies, and its steps.

use crate::history::History;
use crate::identity::CellIdentity;
use crate::view::View;
use atomic_table::{Play, Seat, Shared, Split, TableRule};

/// The rule.
pub struct JournalRule;

impl TableRule<Option<History>, View, CellIdentity> for JournalRule {
    ghost use Rattle.cell_journal.specs.Rules.{Keeps, first_view};

    ghost holds = { λ cell s. Keeps cell s };

    ghost first = { first_view };
}

/// The journal is taken, if it is there.
pub struct Take;

impl Play<Option<History>, View> for Take {
    ghost use Rattle.cell_journal.specs.Rules.{Takes};

    ghost then = { Takes };
}

/// The journal is given back.
pub struct Give;

impl Play<Option<History>, View> for Give {
    ghost use Rattle.cell_journal.specs.Rules.{Gives};

    ghost then = { Gives };
}

/// The word says something else of whoever has the journal.
pub struct Mark;

impl Play<Option<History>, View> for Mark {
    ghost use Rattle.cell_journal.specs.Rules.{Marks};

    ghost then = { Marks };
}

/// A writer for the next node.
pub struct Next;

impl Split<View> for Next {
    ghost use Rattle.cell_journal.specs.Rules.{after_next, next_writer};

    ghost left = { after_next };

    ghost right = { next_writer };
}

/// The history, as its writers share it.
pub type SharedHistory = Shared<Option<History>, View, CellIdentity, JournalRule>;

/// A writer of the journal. It takes no memory.
pub type JournalWriter = Seat<Option<History>, View>;
