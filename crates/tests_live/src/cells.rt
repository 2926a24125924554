//! Small cells, clocks that are odd, and calls of several tests.

ghost use Rattle.std.specs.Prelude.{◌≡◌};

use cell_run::cell::{Cell, Seat};
use gfs_types::answer::Answer;
use gfs_types::call::Call;
use gfs_types::config::Config;
use gfs_types::lists::Text;
use gfs_types::refusal::Refusal;
use std::alloc::Global;
use std::sync::Wait;
use std::thread::{JoinHandle, Threads};
use std::time::{Clock, Duration};
use std::{io, thread};

/// The settings of a cell of small chunks, with three replicas of each, where no attempt is over soon.
pub fn small() -> Config {
    Config {
        chunk: 64,
        block: 16,
        slots: 64,
        goal: 3,
        attempt_ms: 60_000,
        ..Config::default()
    }
}

/// A clock that is ahead by an hour, or can't be read.
#[derive(Clone, Copy)]
pub struct OddClock<R> {
    pub rt: R,
    pub is_broken: bool,
}

impl<R: Wait> Wait for OddClock<R> {}

impl<R: Threads> Threads for OddClock<R> {}

impl<R: Clock> Clock for OddClock<R> {
    fn monotonic(&self) -> io::Result<Duration> {
        if self.is_broken {
            return Err(io::Error::from(io::ErrorKind::Unsupported));
        }
        Ok(
            self.rt
                .monotonic()?
                .saturating_add(Duration::from_secs(3_600)),
        )
    }

    fn since_1970(&self) -> io::Result<Duration> {
        self.rt.since_1970()
    }
}

/// A path as calls take it.
pub fn text(alloc: Global, path: &str) -> Result<Text, Refusal> {
    match Text::from_str(path, alloc) {
        Ok(path) => Ok(path),
        Err(_) => Err(Refusal::NoMemory),
    }
}

/// Makes a directory.
pub fn mkdir<R: Wait + Clock>(
    rt: &R,
    alloc: Global,
    seat: &mut Seat,
    name: &str,
) -> Result<(), Refusal>
    ensures { seat.new.cell ≡ seat.old.cell }
{
    match seat.call(rt, Call::Mkdir(text(alloc, name)?)) {
        Ok(Answer::Done) => Ok(()),
        Ok(Answer::Refused(refusal)) => Err(refusal),
        Ok(_) => Err(Refusal::Unknown),
        Err(refusal) => Err(refusal),
    }
}

/// A client's call on a thread of its own, which waits where its cell is deaf; then the client is dropped. Tells whether it was refused since the cell closes.
pub fn waiting_call<R: Threads + Wait + Clock + Copy + Send + 'static>(
    rt: R,
    alloc: Global,
    cell: &mut Cell,
) -> Option<JoinHandle<bool>>
    ensures { cell.new.of ≡ cell.old.of }
{
    let mut seat = cell.client().ok()?;
    let job = move || mkdir(&rt, alloc, &mut seat, "/d") == Err(Refusal::Closed);
    thread::spawn(&rt, job).ok()
}
