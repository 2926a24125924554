//! Entries, written at the end of bytes.

ghost use Rattle.std.specs.Prelude.{◌≡◌, ◌++◌, length, OnOk};
ghost use Rattle.std.specs.List.{AllByRecursion};
ghost use Rattle.log_codec.specs.Fields.{IsIndex};
ghost use Rattle.log_codec.specs.Payloads.{payload, IsWritable};
ghost use Rattle.oplog.specs.Entries.{entries, entry, IsEntry};

use gfs_types::no_memory::NoMemory;
use log_codec::{encoded_len, put_record};
use log_records::record::Record;

/// Writes a record's or an item's length and payload at the end. At `NoMemory` a part of them may stand there.
#[tactic(auto, unfolding(crate::specs::Entries::entry, log_codec::specs::Fields::index))]
pub fn put_entry(out: &mut Vec<u8>, logged: &Record) -> Result<(), NoMemory>
    requires writable { IsWritable logged.now }
    requires short { IsIndex (length (payload logged.now)) }
    ensures bytes { OnOk result (out.new.items ≡ out.old.items ++ entry logged.now) }
    ensures stands { OnOk result (IsEntry logged.now) }
{
    let size = encoded_len(logged) as u32;
    out.extend_from_slice(&size.to_le_bytes())?;
    put_record(out, logged)
}
