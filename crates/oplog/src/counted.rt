//! A list of which proofs read the records, and a program the length.

ghost use Rattle.std.specs.Prelude.{◌≡◌, ◌==◌, ◌<◌, ◌^◌, ◌||◌, ◌++◌, ◌∷◌, [], length};
ghost use Rattle.std.specs.List.{list_any};
ghost use Rattle.log_codec.specs.Payloads.{has_shape};

use gfs_types::ghost_list::GhostList;
use log_codec::has_shape;
use log_records::record::Record;
use std::marker::Model;

/// A list of records, of which only the length is there at run time, and whether one tells a shape. By itself it tells nothing of a log: whoever keeps it states
/// how the two belong together.
#[derive(Drop)]
pub struct CountedRecords {
    count: usize,
    tells_shape: bool,
    records: GhostList<Record>,
}

impl Model for CountedRecords {
    ghost use Rattle.std.specs.Prelude.{◌≡◌, List, length};
    ghost use Rattle.std.specs.List.{list_any};
    ghost use Rattle.log_codec.specs.Payloads.{has_shape};
    ghost use Rattle.log_records.specs.declared.record.Record.{Record};

    ghost Value = { List Record };

    ghost view = { λ c. c.records.items };

    ghost invariant = { λ c. (c.count ≡ length c.records.items) × (c.tells_shape ≡ list_any has_shape c.records.items) };
}

fn is_or_has_shape(is: bool, entry: &Record) -> bool
    ensures { result ≡ (is || has_shape entry.now) }
{
    is || has_shape(entry)
}

impl CountedRecords {
    /// No record.
    pub fn new() -> CountedRecords
        ensures { result ≡ [] }
    {
        CountedRecords {
            count: 0,
            tells_shape: false,
            records: GhostList::new(),
        }
    }

    /// These records, one after another.
    pub fn of(records: &[Record]) -> CountedRecords
        ensures { result ≡ records.now }
    {
        let mut counted = CountedRecords::new();
        for entry in records {
            counted.push(entry);
        }
        counted
    }

    /// One record more, at the end.
    pub fn push(&mut self, entry: &Record)
        requires { length self.old < 2 ^ 63 }
        ensures { self.new ≡ self.old ++ entry.now ∷ [] }
    {
        self.count += 1;
        self.tells_shape = is_or_has_shape(self.tells_shape, entry);
        self.records = self.records.and(entry);
    }

    /// How many records there are.
    pub fn len(&self) -> usize
        ensures { result ≡ length self.now }
    {
        self.count
    }

    /// Whether one of them tells a file's shape.
    pub fn has_shape(&self) -> bool
        ensures { result ≡ list_any has_shape self.now }
    {
        self.tells_shape
    }

    /// Whether there is none.
    pub fn is_empty(&self) -> bool
        ensures { result ≡ (length self.now == 0) }
    {
        self.count == 0
    }
}
