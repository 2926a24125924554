//! A cell begins again without its messages.

ghost use Rattle.std.specs.Prelude.{◌≡◌, ◌≤◌, ◌+◌, [], IfErr, OnOk, OnErr};
ghost use Rattle.protocol_journal.specs.Rebased.{restart_events};
ghost use Rattle.cell_world.specs.Looks.{server_count};
ghost use Rattle.cell_world.specs.Rebasing.{IsBehind, Rebases};
ghost use Rattle.cell_world.specs.Runs.{Runs};

use crate::cell::CellState;
use crate::master::StoppableMaster;
use crate::rebase_fault::RebaseFault;
use gfs_types::ids::{Moment, Node, ServerId};

impl<M: StoppableMaster> CellState<M> {
    /// The master and then each server, in rising number, begin again at a moment that an event may have. Then all messages are dropped, and the
    /// next one has the number 1. At an error nothing has changed.
    ///
    /// - `Clock`: the moment is more than the clock bound behind the greatest one that a node was given.
    pub fn rebase(&mut self, now: Moment) -> Result<(), RebaseFault>
        ensures ok { OnOk result (Rebases self.old now.0 self.new) }
        ensures clock { OnOk result (self.old.greatest ≤ now.0 + self.old.config.skew_ms) }
        ensures fault { IfErr result (λ fault. (fault ≡ RebaseFault.Clock) × IsBehind self.old now.0) }
        ensures err { OnErr result (self.new ≡ self.old) }
    {
        if now.0.saturating_add(self.config.skew_ms) < self.greatest.0 {
            return Err(RebaseFault::Clock);
        }
        self.restart_all(now);
        self.drop_messages();
        Ok(())
    }

    // The master and then each server, in rising number, begin again.
    fn restart_all(&mut self, now: Moment)
        ensures { Runs self.old (restart_events (server_count self.old) now.0) [] self.new }
    {
        let count = self.server_count();
        self.restart(Node::Master, now);
        for number in 0..count {
            self.restart(Node::Server(ServerId(number + 1)), now);
        }
    }

    /// All messages are dropped, and the next one has the number 1: none of them comes any more.
    pub fn drop_messages(&mut self)
        ensures { self.new ≡ record self.old { sent = [] } }
    {
        self.record.network.clear();
    }
}
