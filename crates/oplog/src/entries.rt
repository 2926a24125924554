//! An entry, read from the front of bytes: a length and a payload.

ghost use Rattle.std.specs.Prelude.{◌≡◌, ◌++◌, List, ℕ, IfOk, IsErrOf};
ghost use Rattle.log_records.specs.declared.record.Record.{Record};
ghost use Rattle.log_codec.specs.declared.fault.DecodeFault.TheVariants.{Damaged};
ghost use Rattle.log_codec.specs.Reading.{Gives};
ghost use Rattle.oplog.specs.Entries.{entry, IsEntry};

use crate::fields::u32_at;
use log_codec::{DecodeFault, decode};
use log_records::record::Record;
use std::alloc::Global;

/// The record or item that the bytes begin with, and the bytes after it.
pub fn entry_at(bytes: &[u8], alloc: Global) -> Result<(Record, &[u8]), DecodeFault>
    ensures found { IfOk result (λ x. IsEntry x.0 × (bytes.now ≡ entry x.0 ++ x.1.now)) }
    ensures undamaged { (r : Record) (rest : List ℕ) → IsEntry r → bytes.now ≡ entry r ++ rest → IsErrOf result Damaged → ⊥ }
{
    let (size, rest) = u32_at(bytes)?;
    let size = size as usize;
    if rest.len() < size {
        return Err(DecodeFault::Damaged);
    }
    let (payload, rest) = rest.split_at(size);
    let record = decode(alloc, payload)?;
    Ok((record, rest))
}
