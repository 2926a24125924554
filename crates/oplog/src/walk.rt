//! The entries of an area, one after another.

ghost use Rattle.std.specs.Prelude.{◌≡◌, ◌+◌, ◌-◌, ◌<◌, ◌≤◌, ◌++◌, [], false, List, drop, length, is_some, slice_get, IfOk, IfSome, IsErrOf, OnErr, OnOk};
ghost use Rattle.log_records.specs.declared.record.Record.{Record};
ghost use Rattle.log_codec.specs.declared.fault.DecodeFault.TheVariants.{Damaged};
ghost use Rattle.oplog.specs.Areas.{AreaSays, AreaState};
ghost use Rattle.oplog.specs.Walks.{IsLeft, IsWalk, passed, Steps};

use crate::area::parts_of;
use crate::entries::entry_at;
use crate::gate::{behind_gate, is_open};
use log_codec::DecodeFault;
use log_records::record::Record;
use std::alloc::Global;

/// A walk through an area's bytes, which it keeps: the items, and then the records.
#[derive(Drop)]
pub struct Walk {
    bytes: Vec<u8>,
    // where the next entry stands, or the gate before it
    at: usize,
    // where the checkpoint ends
    items_end: usize,
    // how many entries it has passed
    place: u64,
}

// The entry that comes first of those that are left, and the bytes after it; None at a closed gate. So many of the bytes are items.
fn first_entry(
    left: &[u8],
    taken: usize,
    alloc: Global,
) -> Result<Option<(Record, &[u8])>, DecodeFault>
    ensures steps { (items records : List Record) → IsLeft items records left.now taken → IfOk result (λ o. IfSome o (λ x. Steps items records left.now taken x.0 x.1.now)) }
    ensures none { (items records : List Record) → IsLeft items records left.now taken → IfOk result (λ o. is_some o ≡ false → items ++ records ≡ []) }
    ensures undamaged { (items records : List Record) → IsLeft items records left.now taken → IsErrOf result Damaged → ⊥ }
{
    if taken > 0 {
        let item = entry_at(left, alloc)?;
        return Ok(Some(item));
    }
    if is_open(left) {
        let record = entry_at(behind_gate(left), alloc)?;
        return Ok(Some(record));
    }
    Ok(None)
}

// The bytes from a place on, and how many of these are items.
fn what_is_left(bytes: &[u8], at: usize, items_end: usize) -> (&[u8], usize)
    requires { at ≤ length bytes.now }
    ensures left { result.0.now ≡ drop at bytes.now }
    ensures taken { result.1 ≡ items_end - at }
{
    let (_, left) = bytes.split_at(at);
    (left, items_end.saturating_sub(at))
}

impl Walk {
    /// Before the first entry. `Damaged`: the bytes are none of an open area's.
    pub fn begin(bytes: Vec<u8>) -> Result<Walk, DecodeFault>
        ensures walk { (area : AreaState) → AreaSays area bytes.items → IfOk result (λ w. IsWalk (area.items ++ area.records) w) }
        ensures place { IfOk result (λ w. passed w ≡ 0) }
        ensures undamaged { (area : AreaState) → AreaSays area bytes.items → IsErrOf result Damaged → ⊥ }
    {
        let parts = parts_of(&bytes)?;
        let items_end = 13 + parts.1.len();
        Ok(Walk {
            bytes,
            at: 13,
            items_end,
            place: 0,
        })
    }

    /// How many entries it has passed.
    pub fn place(&self) -> u64
        ensures { result ≡ passed self.now }
    {
        self.place
    }

    /// The next entry; None behind the last one. After an error the walk is where it was.
    pub fn next(&mut self, alloc: Global) -> Result<Option<Record>, DecodeFault>
        requires { (all : List Record) × IsWalk all self.old }
        ensures entry { (all : List Record) → IsWalk all self.old → IfOk result (λ o. o ≡ slice_get all (passed self.old)) }
        ensures walk { (all : List Record) → IsWalk all self.old → IsWalk all self.new }
        ensures place { (all : List Record) → IsWalk all self.old → passed self.old < length all → OnOk result (passed self.new ≡ passed self.old + 1) }
        ensures err { OnErr result (self.new ≡ self.old) }
        ensures undamaged { IsErrOf result Damaged → ⊥ }
    {
        let (left, taken) = what_is_left(&self.bytes, self.at, self.items_end);
        let first = first_entry(left, taken, alloc)?;
        let Some(found) = first else {
            return Ok(None);
        };
        self.at = self.bytes.len() - found.1.len();
        self.place += 1;
        Ok(Some(found.0))
    }

    /// Goes on to a place.
    pub fn go_to(&mut self, place: u64, alloc: Global) -> Result<(), DecodeFault>
        requires there { (all : List Record) × IsWalk all self.old × (place < length all) }
        requires ahead { passed self.old ≤ place }
        ensures walk { (all : List Record) → IsWalk all self.old → IsWalk all self.new }
        ensures place { OnOk result (passed self.new ≡ place) }
        ensures undamaged { IsErrOf result Damaged → ⊥ }
    {
        while self.place < place {
            self.next(alloc)?;
        }
        Ok(())
    }
}
