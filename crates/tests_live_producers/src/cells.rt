//! Small cells, and waiting for what comes to pass in them.

use gfs_types::config::Config;
use std::sync::Wait;
use std::sync::atomic::{AtomicU64, Ordering};
use std::time::{Clock, Duration};
use std::{io, thread};

/// For how many milliseconds something may be waited for.
const MOST_TURNS: u64 = 10_000;

/// The settings of a cell of small chunks with so many replicas of each, where no attempt is over soon.
pub fn small(goal: u32) -> Config {
    Config {
        chunk: 64,
        block: 16,
        slots: 64,
        goal,
        attempt_ms: 60_000,
        ..Config::default()
    }
}

/// Waits until so much was counted, but not for ever.
pub fn wait_for<R: Clock>(rt: &R, counter: &AtomicU64, count: u64) {
    for _ in 0..MOST_TURNS {
        if counter.load(Ordering::SeqCst) >= count {
            return;
        }
        thread::sleep(rt, Duration::from_millis(1));
    }
}

/// A clock that can be read so often, and then no more.
#[derive(Drop)]
pub struct StoppingClock<R: Drop> {
    pub rt: R,
    pub most: u64,
    pub readings: AtomicU64,
}

impl<R: Wait + Drop> Wait for StoppingClock<R> {}

impl<R: Clock + Drop> Clock for StoppingClock<R> {
    fn monotonic(&self) -> io::Result<Duration> {
        if self.readings.fetch_add(1, Ordering::SeqCst) >= self.most {
            return Err(io::Error::from(io::ErrorKind::Unsupported));
        }
        self.rt.monotonic()
    }

    fn since_1970(&self) -> io::Result<Duration> {
        self.rt.since_1970()
    }
}
