//! An area, read from its bytes.

ghost use Rattle.std.specs.Prelude.{◌≡◌, ◌+◌, ℕ, List, length, IfOk, IsErrOf, Some};
ghost use Rattle.oplog.specs.Areas.{area_bytes, AreaSays, AreaState, end_of};
ghost use Rattle.oplog.specs.Entries.{entries, open_entries};
ghost use Rattle.log_codec.specs.Fields.{IsIndex, IsNumber};
ghost use Rattle.log_codec.specs.declared.fault.DecodeFault.TheVariants.{Damaged};
ghost use Rattle.log_codec.specs.Reading.{Gives};

use crate::counted::CountedRecords;
use crate::fields::{u32_at, u64_at};
use crate::gate::{behind_gate, is_open};
use crate::reading_items::{read_items, read_records};
use log_codec::DecodeFault;
use std::alloc::Global;
use std::marker::Model;

/// What an open area says. Its items and records are counted, and aren't kept.
#[derive(Drop)]
pub struct Area {
    number: u64,
    items: CountedRecords,
    records: CountedRecords,
    end: usize,
    ghost ends: { end ≡ 13 + length (entries items) + length (open_entries records) },
}

impl Model for Area {
    ghost use Rattle.oplog.specs.Areas.{AreaState};

    ghost Value = { AreaState };

    ghost view = { λ a. record { number = a.number; items = a.items; records = a.records } };
}

impl Area {
    /// Its number, which rises with each checkpoint.
    pub fn number(&self) -> u64
        ensures { result ≡ self.now.number }
    {
        self.number
    }

    /// Where the closed gate after the last record stands in the area.
    pub fn end(&self) -> usize
        ensures { result ≡ end_of self.now }
    {
        self.end
    }

    /// The checkpoint's items, and the records appended after it.
    pub fn into_parts(self) -> (CountedRecords, CountedRecords)
        ensures items { result.0 ≡ self.items }
        ensures records { result.1 ≡ self.records }
    {
        (self.items, self.records)
    }
}

/// The number, the checkpoint and what follows it.
pub fn parts_of(bytes: &[u8]) -> Result<(u64, &[u8], &[u8]), DecodeFault>
    ensures found { IfOk result (λ x. IsNumber x.0 × IsIndex (length x.1.now) × (bytes.now ≡ area_bytes x.0 x.1.now x.2.now)) }
    ensures undamaged { (n : ℕ) (checkpoint rest : List ℕ) → IsNumber n → IsIndex (length checkpoint) → bytes.now ≡ area_bytes n checkpoint rest → IsErrOf result Damaged → ⊥ }
{
    if !is_open(bytes) {
        return Err(DecodeFault::Damaged);
    }
    let (number, rest) = u64_at(behind_gate(bytes))?;
    let (size, rest) = u32_at(rest)?;
    let size = size as usize;
    if rest.len() < size {
        return Err(DecodeFault::Damaged);
    }
    let (checkpoint, rest) = rest.split_at(size);
    Ok((number, checkpoint, rest))
}

/// What the area with these bytes says. Whatever stands behind the closed gate after its last record counts for nothing.
///
/// `Damaged`: the area is closed, or its bytes are not in the grammar. `NoMemory`: an allocator refused what an item or a record needs.
pub fn read_area(alloc: Global, bytes: &[u8]) -> Result<Area, DecodeFault>
    ensures found { IfOk result (λ a. AreaSays a bytes.now) }
    ensures only { (area : AreaState) → AreaSays area bytes.now → Gives (λ a. a) result (Some area) }
{
    let (number, checkpoint, rest) = parts_of(bytes)?;
    let items = read_items(checkpoint, alloc)?;
    let (records, end) = read_records(rest, alloc)?;
    Ok(Area {
        number,
        items,
        records,
        end: 13 + checkpoint.len() + end,
    })
}
