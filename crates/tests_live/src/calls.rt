//! Each call of a client, by its seat's own method.

use crate::cells::{small, text};
use bytes::Bytes;
use cell_run::cell::{Cell, Seat};
use cell_seats::gate::OpenGate;
use gfs_types::refusal::Refusal;
use std::alloc::Global;
use std::sync::Wait;
use std::test::*;
use std::time::Clock;

// A file in a directory is written, measured and closed. Gives its length.
fn write_file<R: Wait + Clock>(rt: &R, alloc: Global, seat: &mut Seat) -> Result<u64, Refusal> {
    seat.mkdir(rt, text(alloc, "/d")?)?;
    seat.create(rt, text(alloc, "/d/f")?, None)?;
    let fd = seat.open(rt, text(alloc, "/d/f")?)?;
    seat.write(rt, fd, 0, Bytes::from_static(b"a record"))?;
    let count = seat.length(rt, fd)?;
    seat.close(rt, fd)?;
    Ok(count)
}

// It is copied, leaves its directory, which goes then, and goes itself. Gives how many names `/` has in the end.
fn move_file<R: Wait + Clock>(rt: &R, alloc: Global, seat: &mut Seat) -> Result<usize, Refusal> {
    seat.snapshot(rt, text(alloc, "/d/f")?, text(alloc, "/g")?)?;
    seat.rename(rt, text(alloc, "/d/f")?, text(alloc, "/f")?)?;
    seat.rmdir(rt, text(alloc, "/d")?)?;
    seat.delete(rt, text(alloc, "/f")?)?;
    let names = seat.list(rt, text(alloc, "/")?)?;
    let count = names.len();
    drop(names);
    Ok(count)
}

// All this by a new client.
fn write_and_move<R: Wait + Clock>(
    rt: &R,
    alloc: Global,
    cell: &mut Cell,
) -> Option<(Result<u64, Refusal>, Result<usize, Refusal>)> {
    let mut seat = cell.client().ok()?;
    let written = write_file(rt, alloc, &mut seat);
    let names = move_file(rt, alloc, &mut seat);
    drop(seat);
    Some((written, names))
}

#[test]
fn each_call_has_its_method(rt: HostRuntime) -> Result<(), Fail> {
    let alloc = rt.alloc();
    let mut cell = Cell::start(rt, alloc, small(), 3, OpenGate)?;
    let called = write_and_move(&rt, alloc, &mut cell);
    drop(cell.close(&rt));
    // In the end there are the copy, and `/.gone`.
    assert!(rt; called == Some((Ok(8), Ok(2))));
    Ok(())
}
