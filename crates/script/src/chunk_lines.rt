//! The lines that are printed of a chunk.

ghost use Rattle.std.specs.Prelude.{◌≡◌, Some};
ghost use Rattle.script.specs.Chunks.{kind_of, region_text, regions_line, replica_text, replicas_line};

use crate::stored::StoredReplica;
use gfs_types::ids::Handle;
use relaxed_file::region::Region;
use std::fmt;

fn kind(is_determined: bool) -> &'static str
    ensures { result.now ≡ kind_of is_determined }
{
    if is_determined {
        "determined"
    } else {
        "undetermined"
    }
}

/// Where a region begins and ends, and of which kind it is.
#[derive(Clone, Copy)]
struct RegionText<'a>(&'a Region);

impl fmt::Display for RegionText<'_> {
    ghost output = { λ t. Some (region_text t.0.now) };

    fn fmt<W: fmt::Write>(&self, f: &mut fmt::Formatter<W>) -> fmt::Result {
        let from = self.0.from;
        let to = self.0.to;
        let kind = kind(self.0.determined);
        write!(f, "{from}-{to} {kind}")
    }
}

/// What is printed of a chunk's regions, without a line feed.
#[derive(Clone, Copy)]
pub struct RegionsLine<'a>(pub &'a [Region]);

impl fmt::Display for RegionsLine<'_> {
    ghost output = { λ l. Some (regions_line l.0.now) };

    fn fmt<W: fmt::Write>(&self, f: &mut fmt::Formatter<W>) -> fmt::Result {
        let Some((first, rest)) = self.0.split_first() else {
            return f.write_str("regions -");
        };
        write!(f, "regions {}", RegionText(first))?;
        for region in rest {
            write!(f, ", {}", RegionText(region))?;
        }
        Ok(())
    }
}

/// The server of a replica, its version and its length in bytes.
#[derive(Clone, Copy)]
struct ReplicaText<'a>(&'a StoredReplica);

impl fmt::Display for ReplicaText<'_> {
    ghost output = { λ t. Some (replica_text t.0.now) };

    fn fmt<W: fmt::Write>(&self, f: &mut fmt::Formatter<W>) -> fmt::Result {
        let server = self.0.server.0;
        let version = self.0.version.0;
        let length = self.0.length;
        write!(f, "s{server} v{version} {length}")
    }
}

/// What is printed of a chunk's handle and its replicas, without a line feed.
#[derive(Clone, Copy)]
pub struct ReplicasLine<'a> {
    pub handle: Handle,
    pub replicas: &'a [StoredReplica],
}

impl fmt::Display for ReplicasLine<'_> {
    ghost output = { λ l. Some (replicas_line l.handle l.replicas.now) };

    fn fmt<W: fmt::Write>(&self, f: &mut fmt::Formatter<W>) -> fmt::Result {
        let handle = self.handle.0;
        write!(f, "replicas {handle}")?;
        let Some((first, rest)) = self.replicas.split_first() else {
            return Ok(());
        };
        write!(f, " {}", ReplicaText(first))?;
        for replica in rest {
            write!(f, ", {}", ReplicaText(replica))?;
        }
        Ok(())
    }
}
