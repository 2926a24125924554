//! Where a record goes in a file's last chunk: the system picks the offset of a record append (section 3.3 of the Google File System paper).
#![tactic(auto)]

ghost use Rattle.std.specs.Prelude.{◌≡◌};
ghost use Rattle.record_append.specs.Placing.{placing};

pub mod placing;

use crate::placing::Placing;

/// Where a record of `size` bytes goes in a chunk that holds `length` bytes, of the `chunk` bytes that it may hold.
///
/// Looked at in this order: a record longer than a quarter of a chunk is `TooLong`; a chunk of `chunk` bytes or more is `Full`;
/// where the record doesn't fit behind the chunk's bytes, the rest of the chunk is padded (`Pad`); else the record begins at
/// the chunk's length (`At`). Takes no memory.
pub fn place(length: u64, size: u64, chunk: u64) -> Placing
    ensures { result ≡ placing length size chunk }
{
    if size > chunk / 4 {
        return Placing::TooLong;
    }
    if length >= chunk {
        return Placing::Full;
    }
    if size > chunk - length {
        return Placing::Pad(length);
    }
    Placing::At(length)
}
