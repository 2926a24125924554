//! The records that a reader took.

ghost use Rattle.std.specs.Prelude.{◌≡◌, ◌≤◌, OnOk, Contains, length, true};
ghost use mathlib.Core.List.{IsPrefix};
ghost use Rattle.embedded_cell.specs.Reading.{AllTaken, IsTakenAt};

use crate::record::{SIZE, record_at};
use std::alloc::AllocError;

/// A record: its id, and the offset at which it stands.
#[derive(Clone, Copy)]
pub struct Taken {
    pub id: u32,
    pub offset: u64,
}

/// Whether this record is among them.
pub fn has(taken: &[Taken], one: Taken) -> bool
    ensures { result ≡ true → Contains taken.now one }
{
    for other in taken {
        if other.id == one.id && other.offset == one.offset {
            return true;
        }
    }
    false
}

// Takes a record, once.
fn take(taken: &mut Vec<Taken>, one: Taken) -> Result<(), AllocError>
    ensures stays { OnOk result (IsPrefix taken.old.items taken.new.items) }
    ensures has { OnOk result (Contains taken.new.items one) }
{
    if has(taken.as_slice(), one) {
        return Ok(());
    }
    taken.push(one)?;
    Ok(())
}

// Takes the record that stands at a place of these bytes, which begin at an offset of the file, if one does. Answers the place behind it, or 0.
fn take_at(
    taken: &mut Vec<Taken>,
    bytes: &[u8],
    offset: u64,
    place: usize,
) -> Result<usize, AllocError>
    requires { place ≤ length bytes.now }
    ensures stays { OnOk result (IsPrefix taken.old.items taken.new.items) }
    ensures takes { OnOk result (IsTakenAt bytes.now offset place taken.new.items) }
{
    let Some(id) = record_at(bytes, place) else {
        return Ok(0);
    };
    let one = Taken {
        id,
        offset: offset.wrapping_add(place as u64),
    };
    take(taken, one)?;
    Ok(place.saturating_add(SIZE))
}

/// Takes the records of these bytes, which begin at an offset of the file: each place is looked at, so that nothing that looks like a record hides
/// one. Answers the place behind the last one, or 0.
pub fn take_all(taken: &mut Vec<Taken>, bytes: &[u8], offset: u64) -> Result<usize, AllocError>
    ensures stays { OnOk result (IsPrefix taken.old.items taken.new.items) }
    ensures takes { OnOk result (AllTaken bytes.now offset taken.new.items) }
{
    let mut behind: usize = 0;
    for place in 0..bytes.len() {
        let end = take_at(taken, bytes, offset, place)?;
        behind = behind.max(end);
    }
    Ok(behind)
}
