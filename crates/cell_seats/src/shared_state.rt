//! What all nodes of a running cell share.

ghost use Rattle.std.specs.Prelude.{◌≡◌, ◌≤◌, ◌-◌, IfSome};
ghost use Rattle.protocol.specs.Tables.{moment_limit};

use crate::controls::Controls;
use crate::mailboxes::MailboxSenders;
use cell_journal::JournalTable;
use gfs_types::ids::{MAX_MOMENT, Moment};
use std::sync::atomic::{AtomicU64, Ordering};
use std::time::{Clock, Duration};

/// How many clients a cell may have.
pub const MOST_CLIENTS: u64 = 64;

/// What `SharedState::closing` says once no step is begun any more, once no node and no client needs to be told so, and while the threads of a
/// parked cell that goes on wait for its nodes.
pub const CLOSING: u64 = 1;

pub const ENDED: u64 = 2;

pub const STARTING: u64 = 3;

/// How far a running cell was, each count at a moment of its own: how many calls were answered, how many steps were taken, for how many more there was
/// room in its journal, and how often a step found its message let go.
#[derive(Clone, Copy, Debug, PartialEq, Eq)]
pub struct Progress {
    pub answered: u64,
    pub events: u64,
    pub room: u64,
    pub lost: u64,
}

/// The journal, the mailboxes, what is asked from outside, and the moment at which the cell began.
pub struct SharedState {
    pub table: JournalTable,
    pub senders: MailboxSenders,
    pub controls: Controls,
    pub began: Duration,
    /// Which clients are in a call, by their bits.
    pub calling: AtomicU64,
    /// How far the cell is from its beginning or its end.
    pub closing: AtomicU64,
    /// How many calls were answered, and how many steps stand in the journal.
    pub answered: AtomicU64,
    pub events: AtomicU64,
    /// How often a step that was begun found its message let go.
    pub lost: AtomicU64,
    pub ghost one: { (table.shared.table_id.words ≡ 1) × (table.shared.table_id.slots ≡ 1) },
}

// Stands here, once, so that no crate above proves the drops of all that the nodes share.
impl Drop for SharedState {
    fn drop(self) {
        let Self {
            table: _table,
            senders: _senders,
            controls: _controls,
            began: _,
            calling: _calling,
            closing: _closing,
            answered: _answered,
            events: _events,
            lost: _lost,
        } = self;
    }
}

impl SharedState {
    /// The moment now, if there is one.
    pub fn now(&self, rt: &impl Clock) -> Option<Moment>
        ensures { IfSome result (λ m. m.0 ≤ moment_limit) }
    {
        let since = rt.monotonic().ok()?.checked_sub(self.began)?;
        let now = u64::try_from(since.as_millis()).ok()?;
        if now > MAX_MOMENT {
            return None;
        }
        Some(Moment(now))
    }

    /// How far the cell is, whose journal has room for so many steps in all.
    pub fn progress(&self, most: u64) -> Progress
        ensures { result.room ≡ most - result.events }
    {
        let events = self.events.load(Ordering::SeqCst);
        Progress {
            answered: self.answered.load(Ordering::SeqCst),
            events,
            room: most.saturating_sub(events),
            lost: self.lost.load(Ordering::SeqCst),
        }
    }

    pub fn is_closing(&self) -> bool {
        let word = self.closing.load(Ordering::SeqCst);
        word == CLOSING || word == ENDED
    }
}
