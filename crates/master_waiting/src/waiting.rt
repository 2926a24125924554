//! What the master knows until it stops: version numbers that are under way, and snapshots that wait.

ghost use Rattle.std.specs.Prelude.{◌≡◌, true};
ghost use Rattle.master_waiting.specs.CallLocks.{has_paths};

use gfs_types::ids::{ClientId, Moment, Version};
use gfs_types::lists::ServerList;
use gfs_types::path::Path;
use std::marker::Model;

/// A version number that was issued and is neither granted nor given up.
#[derive(Drop)]
pub struct VersionAttempt {
    version: u64,
    servers: ServerList,
    recorded: ServerList,
    begun: u64,
}

impl Model for VersionAttempt {
    ghost use Rattle.protocol.specs.Master.{VersionAttempt as AttemptValue};
    ghost use Rattle.master_waiting.specs.Coding.{coded_attempt};

    ghost Value = { AttemptValue };

    ghost coded = { coded_attempt };

    ghost view = { λ a. record { version = a.version; servers = a.servers; recorded = a.recorded; begun = a.begun } };
}

impl VersionAttempt {
    pub fn new(
        version: Version,
        servers: ServerList,
        recorded: ServerList,
        begun: Moment,
    ) -> VersionAttempt
        ensures { result ≡ record { version = version.0; servers = servers; recorded = recorded; begun = begun.0 } }
    {
        VersionAttempt {
            version: version.0,
            servers,
            recorded,
            begun: begun.0,
        }
    }

    /// The number.
    pub fn version(&self) -> Version
        ensures { result.0 ≡ self.now.version }
    {
        Version(self.version)
    }

    /// The servers that it was sent to.
    pub fn servers(&self) -> &ServerList
        ensures { result.now ≡ self.now.servers }
    {
        &self.servers
    }

    /// Those that recorded it.
    pub fn recorded(&self) -> &ServerList
        ensures { result.now ≡ self.now.recorded }
    {
        &self.recorded
    }

    /// When it was issued.
    pub fn begun(&self) -> Moment
        ensures { result.0 ≡ self.now.begun }
    {
        Moment(self.begun)
    }
}

/// Where a chunk was found that a snapshot waits for: at this index of the file at this path. Nothing says that it still is, so who
/// uses it looks again.
#[derive(Drop)]
pub struct Awaited {
    pub path: Path,
    pub index: usize,
}

/// A snapshot that waits, under its locks, for leases to end.
#[derive(Drop)]
pub struct Pending {
    pub(crate) client: u64,
    pub(crate) number: u64,
    pub(crate) deadline: u64,
    pub(crate) from: Path,
    pub(crate) to: Path,
    // where a chunk was found last that it waits for
    pub(crate) awaited: Option<Awaited>,
}

impl Model for Pending {
    ghost use Rattle.protocol.specs.Master.{PendingSnapshot};

    ghost Value = { PendingSnapshot };

    ghost view = { λ s. record { client = s.client; number = s.number; deadline = s.deadline; from = s.from; to = s.to } };
}

impl Pending {
    pub fn new(client: ClientId, number: u64, deadline: Moment, from: Path, to: Path) -> Pending
        ensures { result ≡ record { client = client.0; number = number; deadline = deadline.0; from = from; to = to } }
    {
        Pending {
            client: client.0,
            number,
            deadline: deadline.0,
            from,
            to,
            awaited: None,
        }
    }

    /// Its names are paths.
    pub fn has_paths(&self)
        ensures { has_paths self.now ≡ true }
    {
        let _from = self.from.as_str();
        let _to = self.to.as_str();
    }

    /// The client that asked.
    pub fn client(&self) -> ClientId
        ensures { result.0 ≡ self.now.client }
    {
        ClientId(self.client)
    }

    /// The number of its call.
    pub fn number(&self) -> u64
        ensures { result ≡ self.now.number }
    {
        self.number
    }

    /// When it is given up.
    pub fn deadline(&self) -> Moment
        ensures { result.0 ≡ self.now.deadline }
    {
        Moment(self.deadline)
    }

    /// What is copied.
    pub fn from(&self) -> &Path
        ensures { result.now ≡ self.now.from }
    {
        &self.from
    }

    /// Where it is copied to.
    pub fn to(&self) -> &Path
        ensures { result.now ≡ self.now.to }
    {
        &self.to
    }

    /// Where a chunk was found last that it waits for.
    pub fn awaited(&self) -> Option<&Awaited> {
        self.awaited.as_ref()
    }
}
