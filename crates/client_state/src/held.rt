//! The bytes that a read holds.

use bytes::Bytes;

#[derive(Drop)]
pub enum ReadBytes {
    One(Bytes),
    Many(Vec<u8>),
}
