//! What the rows tell of changes.

ghost use Rattle.std.specs.Prelude.{◌≡◌, ◌+◌, nat_le, max};
ghost use Rattle.disk_store.specs.Known.{can_take, longer_row, other_version, raised_row};

use gfs_types::ids::{Serial, Version};
use replica_store::row::Row;

/// Whether a range ends within a chunk.
pub(crate) fn is_within(chunk: u32, offset: u64, count: u64) -> bool
    ensures { result ≡ nat_le (offset + count) chunk }
{
    let chunk = u64::from(chunk);
    offset <= chunk && count <= chunk - offset
}

/// Whether a replica may take the mutation of this serial.
pub(crate) fn can_take(row: Option<Row>, serial: Serial) -> bool
    ensures { result ≡ can_take serial.0 row }
{
    match row {
        None => false,
        Some(row) => row.serial.0 < serial.0,
    }
}

/// Whether it is there under another version.
pub(crate) fn other_version(row: Option<Row>, version: Version) -> bool
    ensures { result ≡ other_version version.0 row }
{
    match row {
        None => false,
        Some(row) => row.version.0 != version.0,
    }
}

/// After the mutation of this serial, which ends there.
pub(crate) fn longer_row(row: Row, serial: Serial, end: u64) -> Row
    ensures { result ≡ longer_row row serial.0 end }
{
    Row {
        version: row.version,
        serial,
        count: row.count.max(end),
    }
}

/// Under a new version, in which serials begin anew.
pub(crate) fn raised_row(row: Row, version: Version) -> Row
    ensures { result ≡ raised_row row version.0 }
{
    Row {
        version,
        serial: Serial(0),
        count: row.count,
    }
}
