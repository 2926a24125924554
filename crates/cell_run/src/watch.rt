//! Tells how far a running cell is, once a second.

use cell_seats::shared_state::{Progress, SharedState};
use crossbeam_channel::{Receiver, RecvTimeoutError, Sender};
use std::sync::{Arc, Wait};
use std::thread::{JoinHandle, Threads};
use std::time::{Clock, Duration};

/// How long a watch waits before it tells again.
const SECONDS: u64 = 1;

/// Is told how far a running cell is.
pub trait Watcher {
    fn tell(&self, progress: Progress);
}

/// A thread that tells a watcher how far a cell is, until it is stopped.
#[derive(Drop)]
pub struct Watch<W: Send + Drop + 'static> {
    pub(crate) stop: Sender<()>,
    pub(crate) thread: JoinHandle<W>,
}

impl<W: Send + Drop + 'static> Watch<W> {
    /// Tells no more, and gives the watcher back.
    pub fn stop(self, rt: &impl Threads) -> W {
        let Self { stop, thread } = self;
        drop(stop);
        thread.join(rt)
    }
}

/// Tells a watcher once a second, until the sending end is gone, and gives it back.
pub(crate) fn tell_on<R: Wait + Clock, W: Watcher>(
    rt: &R,
    shared: &Arc<SharedState>,
    most: u64,
    stopped: &Receiver<()>,
    watcher: W,
) -> W {
    for _ in rt.forever() {
        match stopped.recv_timeout(rt, Duration::from_secs(SECONDS)) {
            Err(RecvTimeoutError::Timeout) => watcher.tell(shared.progress(most)),
            _ => break,
        }
    }
    watcher
}
