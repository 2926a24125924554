//! The nodes of a running cell are registered, each with its own writer of the journal: the master, then the servers, then the clients.

ghost use Rattle.std.specs.Prelude.{◌≡◌, ◌<◌, ◌≤◌, ◌+◌, ◌^◌, [], length, vec_len, true, false, None, IfOk, OnErr, OnOk, IsTrue};
ghost use Rattle.std.specs.Arc.{arc_value};
ghost use Rattle.gfs_types.specs.Settings.{first_out_of_range};
ghost use Rattle.gfs_types.specs.declared.ids.Node.{Node};
ghost use Rattle.protocol_journal.specs.Journal.{own, sent_after};
ghost use Rattle.headline.specs.Journals.{AreExplained};
ghost use Rattle.cell_journal.specs.Clocks.{are_clocks_kept};
ghost use Rattle.cell_journal.specs.Roles.{node_at, number_of};
ghost use Rattle.cell_journal.specs.Rules.{IsJournalOf};
ghost use Rattle.cell_journal.specs.WholeHistories.{whole_of, is_retired};
ghost use Rattle.cell_journal.specs.Log.{listed};
ghost use Rattle.cell_journal.specs.Writers.{IsAt, IsParkedAt};
ghost use Rattle.cell_seats.specs.Journals.{joined, AreBehind};
ghost use Rattle.cell_seats.specs.Registry.{Registers, IsRegistered};

use crate::journal::Journal;
use crate::node_journal::NodeJournal;
use crate::shared_state::SharedState;
use cell_journal::history::History;
use cell_journal::identity::CellIdentity;
use cell_journal::journal_steps::next;
use cell_journal::parked_history::ParkedHistory;
use cell_journal::{JournalWriter, close, park, reclaim};
use gfs_types::config::Config;
use gfs_types::ids::Node;
use gfs_types::no_memory::NoMemory;
use std::sync::{Arc, Wait};
use std::time::Clock;

/// What the nodes of a cell share, and the writer from which those of the nodes are made, so many of them so far.
pub struct NodeRegistry {
    pub shared: Arc<SharedState>,
    pub cell: CellIdentity,
    pub config: Config,
    pub servers: u16,
    pub registered: u64,
    pub writer: JournalWriter,
    pub ghost here: { IsAt (arc_value shared).table.shared.table_id writer.table_id },
    pub ghost in_range: { first_out_of_range config ≡ None },
    pub ghost registers: { Registers config servers registered writer.me },
    pub ghost cell_is: { cell ≡ writer.me.0.of },
}

// Stands here, once, so that no crate above proves the drops of all that the nodes share.
impl Drop for NodeRegistry {
    fn drop(self) {
        let Self {
            shared: _shared,
            cell: _cell,
            config: _,
            servers: _,
            registered: _,
            writer: _writer,
        } = self;
    }
}

impl NodeRegistry {
    /// The next node's journal.
    pub fn next(&mut self, node: Node) -> Result<NodeJournal, NoMemory>
        requires node { node_at self.old.servers self.old.registered ≡ node }
        requires few { self.old.registered < 2 ^ 62 }
        requires goes_on { is_retired self.old.cell node ≡ false }
        ensures same { (self.new.shared ≡ self.old.shared) × (self.new.cell ≡ self.old.cell) × (self.new.config ≡ self.old.config) × (self.new.servers ≡ self.old.servers) × (self.new.writer.me.0.of ≡ self.old.writer.me.0.of) × (self.new.writer.me.0.seen ≡ self.old.writer.me.0.seen) }
        ensures ok { OnOk result (self.new.registered ≡ self.old.registered + 1) }
        ensures journal { IfOk result (λ d. IsRegistered self.old.config self.old.servers node self.old.writer.me.0 d.node d.writer.me.0) }
        ensures err { OnErr result (self.new.registered ≡ self.old.registered) }
    {
        let theirs = Arc::try_clone(&self.shared)?;
        let own = next(&self.shared.table.shared, &mut self.writer);
        self.registered += 1;
        Ok(NodeJournal::new(theirs, node, own))
    }

    /// Nothing is written of the next node.
    pub fn skip(&mut self)
        requires few { self.old.registered < 2 ^ 62 }
        ensures same { (self.new.shared ≡ self.old.shared) × (self.new.cell ≡ self.old.cell) × (self.new.config ≡ self.old.config) × (self.new.servers ≡ self.old.servers) × (self.new.writer.me.0.of ≡ self.old.writer.me.0.of) × (self.new.writer.me.0.seen ≡ self.old.writer.me.0.seen) }
        ensures registered { self.new.registered ≡ self.old.registered + 1 }
    {
        next(&self.shared.table.shared, &mut self.writer);
        self.registered += 1;
    }

    /// Closes the journal, which stands behind the one up to which the cell was parked, if it was. Nothing is added to it any more. Where clocks were
    /// kept the calls and answers of the whole history are a run of the machine.
    pub fn close<R: Wait + Clock>(self, rt: &R, base: Vec<Journal>) -> Journal
        requires one { vec_len base ≤ 1 }
        requires behind { AreBehind self.writer.me.0.of (joined base.items) }
        ensures cell { result.now.cell ≡ self.writer.me.0.of }
        ensures over { result.now.is_over ≡ true }
        ensures earlier { result.earlier ≡ joined base.items }
        ensures lawful { IsJournalOf result.now.cell result.now.entries }
        ensures explained { IsTrue (are_clocks_kept result.now.cell (whole_of result.now)) → AreExplained result.now.cell.config (whole_of result.now) }
    {
        let Self {
            shared,
            cell: _cell,
            config: _,
            servers: _,
            registered: _,
            mut writer,
        } = self;
        Journal::new(close(rt, &shared.table.shared, &mut writer), base)
    }

    /// Takes the journal back, of which no node was registered, so that it has no entries.
    pub fn reclaim<R: Wait + Clock>(self, rt: &R) -> History
        requires first { self.registered ≡ 0 }
        ensures cell { result.cell ≡ self.cell }
        ensures none { result.entries ≡ [] }
    {
        let Self {
            shared,
            cell: _cell,
            config: _,
            servers: _,
            registered: _,
            mut writer,
        } = self;
        reclaim(rt, &shared.table.shared, &mut writer)
    }

    /// Parks the journal, once no step is under way and the cell's whole history has so many entries. Nothing is added to this journal any more.
    pub fn park<R: Wait + Clock>(self, rt: &R, count: usize) -> ParkedHistory
        ensures parked { IsParkedAt self.writer.me.0.of count result.history }
        ensures list { result.list ≡ listed result.history.cell.name (whole_of result.history) }
        ensures range { first_out_of_range result.history.cell.config ≡ None }
        ensures fresh { (n : Node) → self.registered ≤ number_of self.servers n → own n result.history.entries ≡ [] }
        ensures sent { result.sent ≡ length (sent_after [] (whole_of result.history)) }
    {
        let Self {
            shared,
            cell: _cell,
            config: _,
            servers: _,
            registered: _,
            mut writer,
        } = self;
        park(rt, &shared.table.shared, &mut writer, count)
    }
}
