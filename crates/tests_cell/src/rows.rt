//! Scripts on small cells, whose events these tests take.

use gfs_types::config::Config;
use script::options::Options;

/// A script, and what it prints.
#[derive(Clone, Copy)]
pub(crate) struct Row {
    pub lease_ms: u64,
    /// The file that its first client appends to.
    pub path: &'static str,
    pub script: &'static str,
    pub printed: &'static str,
}

impl Row {
    /// Three chunkservers and two clients, and chunks of 64 bytes in blocks of 16.
    pub fn options(&self) -> Options {
        Options {
            servers: 3,
            clients: 2,
            config: Config {
                chunk: 64,
                block: 16,
                lease_ms: self.lease_ms,
                ..Config::default()
            },
        }
    }
}

/// A record that doesn't fit begins the next chunk.
pub(crate) const PAD: Row = Row {
    lease_ms: 60_000,
    path: "/f",
    script: "c1 create /f\nc1 open /f\nc1 append 1 a*13\nc1 append 1 b*13\nc1 append 1 c*13\nc1 append 1 d*13\nc1 append 1 e*13\nc1 read 1 52 12\nregions /f 0\n",
    printed: "c1 done\nc1 fd 1\nc1 at 0\nc1 at 13\nc1 at 26\nc1 at 39\nc1 at 64\nc1 bytes 12 000000000000000000000000 rounds 1\nregions 0-64 determined\n",
};

/// One member doesn't get a mutation in time.
pub(crate) const LOST_FORWARD: Row = Row {
    lease_ms: 60_000,
    path: "/f",
    script: "c1 create /f\nc1 open /f\nhold Forward s3\nc1 append 1 a*13\nregions /f 0\n",
    printed: "c1 done\nc1 fd 1\nc1 at 13\nregions 0-13 undetermined, 13-26 determined\n",
};

/// A primary that is cut off loses its lease; the next round has the other two.
pub(crate) const CUT_PRIMARY: Row = Row {
    lease_ms: 10_000,
    path: "/f",
    script: "c1 create /f\nc1 open /f\nc1 append 1 a*13\nc2 open /f\nc2 read 1 0 64\nhold Acked s1\nstart c1 append 1 b*13\ncut s1\nfinish\njoin s1\nfree\nregions /f 0\n",
    printed: "c1 done\nc1 fd 1\nc1 at 0\nc2 fd 1\nc2 bytes 13 61616161616161616161616161 rounds 1\nc1 at 26\nregions 0-13 determined, 13-26 undetermined, 26-39 determined\n",
};

/// A snapshot waits for a lease, makes others busy and shares the chunk; the next write copies it.
pub(crate) const SNAPSHOT: Row = Row {
    lease_ms: 60_000,
    path: "/d/f",
    script: "c1 mkdir /d\nc1 create /d/f\nc1 open /d/f\nc1 append 1 a*13\nhold Revoke s1\nstart c1 snapshot /d /e\nc2 create /d/x\nfree\nc1 append 1 b*13\nc1 open /e/f\nc1 read 2 0 64\nreplicas /d/f 0\nreplicas /e/f 0\n",
    printed: "c1 done\nc1 done\nc1 fd 1\nc1 at 0\nc2 refused 10 Busy\nc1 done\nc1 at 13\nc1 fd 2\nc1 bytes 13 61616161616161616161616161 rounds 1\nreplicas 2 s1 v2 26, s2 v2 26, s3 v2 26\nreplicas 1 s1 v1 13, s2 v1 13, s3 v1 13\n",
};

/// A set that a server never answers for is given up; those that recorded the number get the next one.
pub(crate) const MISSING_MEMBER: Row = Row {
    lease_ms: 60_000,
    path: "/f",
    script: "c1 create /f\nc1 open /f\ncut s3\nc1 append 1 a*13\nreplicas /f 0\njoin s3\nwait 61000\nreplicas /f 0\n",
    printed: "c1 done\nc1 fd 1\nc1 at 0\nreplicas 1 s1 v2 13, s2 v2 13\nreplicas 1 s1 v2 13, s2 v2 13, s3 v2 13\n",
};
