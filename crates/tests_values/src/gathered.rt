//! What a read gathers: its pieces in order. That they are joined is its contract; here each call succeeds.

use bytes::Bytes;
use client_state::gathered::Gathered;
use gfs_types::no_memory::NoMemory;
use std::alloc::Global;
use std::test::Fail;

fn joined(alloc: Global) -> Result<Bytes, NoMemory> {
    let one = Gathered::new(alloc).with(&Bytes::from_static(b"one "), 7)?;
    one.with(&Bytes::from_static(b"two"), 7)?.into_bytes()
}

#[test]
fn pieces_are_joined(rt: HostRuntime) -> Result<(), Fail> {
    assert!(rt; joined(rt.alloc())?.as_slice() == b"one two".as_slice());
    Ok(())
}
