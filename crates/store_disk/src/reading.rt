//! What the bytes of a disk say.

ghost use Rattle.std.specs.Prelude.{◌≡◌, ◌≤◌, ◌+◌, length, take};
ghost use Rattle.std.specs.Int.{w64, from_le_bytes};
ghost use Rattle.store_disk.specs.Fields.{header_in, number_at, order_in, used_header_in};

use crate::header::SlotHeader;
use gfs_types::ids::{Handle, OrderNo, Serial, Version};

// The first eight bytes, the lowest first.
fn first_number(bytes: &[u8]) -> u64
    requires { 8 ≤ length bytes.now }
    ensures { result ≡ from_le_bytes w64 (take 8 bytes.now) }
{
    u64::from_le_bytes([
        bytes[0], bytes[1], bytes[2], bytes[3], bytes[4], bytes[5], bytes[6], bytes[7],
    ])
}

// The number in the eight bytes from a place on.
fn number_from(bytes: &[u8], place: usize) -> u64
    requires { place + 8 ≤ length bytes.now }
    ensures { result ≡ number_at place bytes.now }
{
    first_number(&bytes[place..])
}

// What a slot that is used says of its replica.
fn used_header(bytes: &[u8]) -> SlotHeader
    requires { 40 ≤ length bytes.now }
    ensures { result ≡ used_header_in bytes.now }
{
    SlotHeader {
        handle: Handle(number_from(bytes, 8)),
        version: Version(number_from(bytes, 16)),
        serial: Serial(number_from(bytes, 24)),
        count: number_from(bytes, 32),
    }
}

/// What a slot says of its replica. `None` where it is free.
pub fn read_header(bytes: &[u8]) -> Option<SlotHeader>
    requires { 40 ≤ length bytes.now }
    ensures { result ≡ header_in bytes.now }
{
    if bytes[0] == 1 {
        Some(used_header(bytes))
    } else {
        None
    }
}

/// The number of the last order.
pub fn read_order(bytes: &[u8]) -> OrderNo
    requires { 16 ≤ length bytes.now }
    ensures { result ≡ order_in bytes.now }
{
    OrderNo {
        epoch: number_from(bytes, 0),
        count: number_from(bytes, 8),
    }
}
