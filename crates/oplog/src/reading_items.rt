//! The items of a checkpoint and the records after it, read one by one and counted.

ghost use Rattle.std.specs.Prelude.{◌≡◌, ◌+◌, List, length, true, IfOk, IsErrOf};
ghost use Rattle.std.specs.List.{AllByRecursion};
ghost use Rattle.log_records.specs.declared.record.Record.{Record};
ghost use Rattle.log_codec.specs.declared.fault.DecodeFault.TheVariants.{Damaged};
ghost use Rattle.oplog.specs.Entries.{entries, open_entries, IsEntry, HoldsRecords};
ghost use Rattle.oplog.specs.Order.{is_checkpoint};

use crate::counted::CountedRecords;
use crate::entries::entry_at;
use crate::gate::{behind_gate, is_open};
use crate::order::comes_next;
use log_codec::{DecodeFault, is_item};
use log_records::record::Record;
use std::alloc::Global;

/// All of the bytes, as a checkpoint's items. Of these the last one alone is kept, for their order.
pub fn read_items(bytes: &[u8], alloc: Global) -> Result<CountedRecords, DecodeFault>
    ensures found { IfOk result (λ v. (bytes.now ≡ entries v) × AllByRecursion IsEntry v × (is_checkpoint v ≡ true)) }
    ensures undamaged { (items : List Record) → AllByRecursion IsEntry items → is_checkpoint items ≡ true → bytes.now ≡ entries items → IsErrOf result Damaged → ⊥ }
{
    let mut items = CountedRecords::new();
    let mut last = None;
    let mut rest = bytes;
    while !rest.is_empty() {
        let (item, after) = entry_at(rest, alloc)?;
        if !comes_next(&last, &item) {
            return Err(DecodeFault::Damaged);
        }
        items.push(&item);
        last = Some(item);
        rest = after;
    }
    Ok(items)
}

/// The records up to the first closed gate, and where that gate stands.
pub fn read_records(bytes: &[u8], alloc: Global) -> Result<(CountedRecords, usize), DecodeFault>
    ensures found { IfOk result (λ x. HoldsRecords x.0 bytes.now) }
    ensures end { IfOk result (λ x. x.1 ≡ length (open_entries x.0)) }
    ensures undamaged { (records : List Record) → HoldsRecords records bytes.now → IsErrOf result Damaged → ⊥ }
{
    let mut records = CountedRecords::new();
    let mut rest = bytes;
    while is_open(rest) {
        let (record, after) = entry_at(behind_gate(rest), alloc)?;
        if is_item(&record) {
            return Err(DecodeFault::Damaged);
        }
        records.push(&record);
        drop(record);
        rest = after;
    }
    if rest.is_empty() {
        return Err(DecodeFault::Damaged);
    }
    Ok((records, bytes.len() - rest.len()))
}
