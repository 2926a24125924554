//! Which cell a journal is of.

ghost use Rattle.std.specs.Prelude.{◌≡◌};
ghost use Rattle.cell_journal.specs.Identity.{identity};
ghost use Rattle.cell_journal.specs.Log.{listed};

use crate::Beginning;
use crate::raised_entry::RaisedEntry;
use crate::retention::Retention;
use gfs_types::config::Config;
use std::marker::Model;

/// The cell of a journal: the name of its list, what that list had before the journal's first entry, its settings, how many servers and
/// clients it may have, and which entries of the journal stay.
#[derive(Drop)]
pub struct CellIdentity {
    base: Beginning<RaisedEntry>,
    config: Config,
    servers: u64,
    clients: u64,
    /// Of which clients, from the first one on, nothing more is written.
    retired: [bool; 64],
    retention: Retention,
}

impl Model for CellIdentity {
    ghost use Rattle.cell_journal.specs.Identity.{Identity, identity};

    ghost Value = { Identity };

    ghost view = { λ i. identity i.base.name i.config i.servers i.clients i.base.items i.retired i.retention };
}

impl CellIdentity {
    pub fn new(
        base: Beginning<RaisedEntry>,
        config: Config,
        servers: u64,
        clients: u64,
        retired: [bool; 64],
        retention: Retention,
    ) -> CellIdentity
        ensures { result ≡ identity base.name config servers clients base.items retired retention }
    {
        CellIdentity {
            base,
            config,
            servers,
            clients,
            retired,
            retention,
        }
    }

    /// The same cell.
    pub fn again(&self) -> CellIdentity
        ensures { result ≡ self.now }
    {
        CellIdentity {
            base: self.base.again(),
            config: self.config,
            servers: self.servers,
            clients: self.clients,
            retired: self.retired,
            retention: self.retention,
        }
    }

    pub fn config(&self) -> Config
        ensures { result ≡ self.now.config }
    {
        self.config
    }

    pub fn servers(&self) -> u64
        ensures { result ≡ self.now.servers }
    {
        self.servers
    }

    /// All entries of the cell before those of the journal.
    pub fn base(&self) -> &Beginning<RaisedEntry>
        ensures { result.now ≡ listed self.now.name self.now.base }
    {
        &self.base
    }

    /// Of which clients, from the first one on, nothing more is written.
    pub fn retired(&self) -> [bool; 64]
        ensures { result ≡ self.now.retired }
    {
        self.retired
    }

    /// Which entries of the journal stay.
    pub fn retention(&self) -> Retention
        ensures { result ≡ self.now.retention }
    {
        self.retention
    }

    pub fn clients(&self) -> u64
        ensures { result ≡ self.now.clients }
    {
        self.clients
    }
}
