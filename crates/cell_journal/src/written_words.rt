//! Words that one writer writes and everybody may read.

ghost use Rattle.std.specs.Prelude.{◌≡◌, ◌+◌, ◌%◌, ◌^◌, ◌<◌, length, slice_index, slice_set, IfOk};
ghost use Rattle.cell_journal.specs.WordRules.{IsWriterOf};

use atomic_table::{Play, Seat, Table, TableRule};
use std::alloc::{AllocError, Global};
use std::collections::LinkedList;

/// The rule: there is one writer, which knows the words.
pub struct WordRule;

impl TableRule<u64, LinkedList<u64>, Vec<u64>> for WordRule {
    ghost use Rattle.cell_journal.specs.WordRules.{AreKnown};

    ghost holds = { λ _ s. AreKnown s };

    ghost first = { λ words. words.items };
}

/// A word is written.
pub struct WriteWord;

impl Play<u64, LinkedList<u64>> for WriteWord {
    ghost use Rattle.cell_journal.specs.WordRules.{Writes};

    ghost then = { Writes };
}

/// A word becomes greater by one.
pub struct RaiseWord;

impl Play<u64, LinkedList<u64>> for RaiseWord {
    ghost use Rattle.cell_journal.specs.WordRules.{Raises};

    ghost then = { Raises };
}

/// The words.
pub type WordTable = Table<u64, LinkedList<u64>, Vec<u64>, WordRule, Global>;

/// The one writer, which knows what the words are. It takes no memory.
pub type WordWriter = Seat<u64, LinkedList<u64>>;

/// These words, and their writer.
pub fn table_with(alloc: Global, words: Vec<u64>) -> Result<(WordTable, WordWriter), AllocError>
    ensures writer { IfOk result (λ t. IsWriterOf t.0.shared.table_id t.1.table_id t.1.me.0) }
    ensures words { IfOk result (λ t. t.1.me.0 ≡ words.items) }
{
    Table::of_words(alloc, words.as_slice(), &words)
}

/// A word is this from now on, until it is written again.
pub fn write(table: &WordTable, writer: &mut WordWriter, place: usize, word: u64)
    requires writer { IsWriterOf table.now.shared.table_id writer.old.table_id writer.old.me.0 }
    requires place { place < length writer.old.me.0 }
    ensures writer { IsWriterOf table.now.shared.table_id writer.new.table_id writer.new.me.0 }
    ensures count { length writer.new.me.0 ≡ length writer.old.me.0 }
    ensures words { writer.new.me.0 ≡ slice_set writer.old.me.0 place word }
{
    table.shared.store::<WriteWord>(writer, place, word)
}

/// A word becomes greater by one, and 0 after the greatest.
pub fn raise(table: &WordTable, writer: &mut WordWriter, place: usize)
    requires writer { IsWriterOf table.now.shared.table_id writer.old.table_id writer.old.me.0 }
    requires place { place < length writer.old.me.0 }
    ensures writer { IsWriterOf table.now.shared.table_id writer.new.table_id writer.new.me.0 }
    ensures count { length writer.new.me.0 ≡ length writer.old.me.0 }
    ensures words { writer.new.me.0 ≡ slice_set writer.old.me.0 place ((slice_index writer.old.me.0 place + 1) % 2 ^ 64) }
{
    table.shared.fetch_add::<RaiseWord>(writer, place, 1);
}

/// The word at a place, as it is now; 0 where there is none.
pub fn read(table: &WordTable, place: usize) -> u64 {
    if place < table.word_count() {
        table.shared.peek(place)
    } else {
        0
    }
}
