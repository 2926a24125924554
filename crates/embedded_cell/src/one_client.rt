//! A client that appends a record and reads it.

use anyhow::Result;
use cell_run::laws::agree;
use cell_run::{Bytes, Cell, Config, OpenGate, Text};
use std::alloc::Global;
use std::sync::Wait;
use std::thread::Threads;
use std::time::Clock;

/// Whether the record is read where it was answered to stand.
pub fn reads_its_record<R: Threads + Wait + Clock + Copy + Send + 'static>(
    rt: R,
    alloc: Global,
) -> Result<bool> {
    let mut cell = Cell::start(rt, alloc, Config::default(), 3, OpenGate)?;
    let mut seat = cell.client()?;
    seat.create(&rt, Text::from_str("/log", alloc)?, None)?;
    let fd = seat.open(&rt, Text::from_str("/log", alloc)?)?;
    let offset = seat.append(&rt, fd, Bytes::from_static(b"a record"))?;
    let (bytes, _rounds) = seat.read(&rt, fd, offset, 8)?;
    let journal = cell.close(&rt);
    agree(&seat, &journal);
    Ok(bytes.as_slice() == b"a record".as_slice())
}
