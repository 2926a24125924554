//! What the master keeps of a chunk (GFS paper, sections 2.6.1 and 3.1).

ghost use Rattle.std.specs.Prelude.{◌≡◌, ◌<◌};
ghost use Rattle.gfs_types.specs.Counters.{counter_limit};
ghost use Rattle.chunk_table.specs.ChunkTable.{new_row, row_issued, row_granted, row_ended, row_put, row_shared, row_left, row_restarted, known_shape};

use gfs_types::ids::{Moment, ServerId, Version};
use gfs_types::lists::ServerList;
use gfs_types::shape::Shape;
use std::alloc::Global;
use std::marker::Model;

/// The shape of a file whose shape isn't known: that of a log which doesn't tell it, until the master's opening.
pub const NO_SHAPE: Shape = Shape { chunk: 0, goal: 0 };

/// A chunk's shape, its versions, the number of its owners, and its last lease. Contracts see a record of numbers.
#[derive(Drop)]
pub struct Chunk {
    shape: Shape,
    granted: Version,
    issued: Version,
    references: u64,
    primary: ServerId,
    members: ServerList,
    lease_end: Moment,
}

impl Model for Chunk {
    ghost use Rattle.chunk_table.specs.ChunkTable.{ChunkRow, coded_row};

    ghost Value = { ChunkRow };

    ghost coded = { coded_row };

    ghost view = { λ c. record {
      shape = c.shape;
      granted = c.granted.0;
      issued = c.issued.0;
      references = c.references;
      primary = c.primary.0;
      members = c.members;
      lease_end = c.lease_end.0;
    } };
}

impl Chunk {
    /// The shape of its file. [`NO_SHAPE`] where it isn't known.
    pub fn shape(&self) -> Shape
        ensures { result ≡ self.now.shape }
    {
        self.shape
    }

    /// The version of the last lease, 0 where there was none.
    pub fn granted(&self) -> Version
        ensures { result.0 ≡ self.now.granted }
    {
        self.granted
    }

    /// The last version number that was issued, 0 where there was none.
    pub fn issued(&self) -> Version
        ensures { result.0 ≡ self.now.issued }
    {
        self.issued
    }

    /// How many files own the chunk. 0 is a copy that no file has taken yet.
    pub fn references(&self) -> u64
        ensures { result ≡ self.now.references }
    {
        self.references
    }

    /// The primary of the last lease.
    pub fn primary(&self) -> ServerId
        ensures { result.0 ≡ self.now.primary }
    {
        self.primary
    }

    /// The members of the last lease, its primary among them.
    pub fn members(&self) -> &ServerList
        ensures { result.now ≡ self.now.members }
    {
        &self.members
    }

    /// The moment at which the last lease ends, in milliseconds.
    pub fn lease_end(&self) -> Moment
        ensures { result.0 ≡ self.now.lease_end }
    {
        self.lease_end
    }

    pub(crate) fn new(alloc: Global, shape: Shape, issued: Version, references: u64) -> Chunk
        ensures { result ≡ record new_row { shape = shape; issued = issued.0; references = references } }
    {
        Chunk {
            shape,
            granted: Version(0),
            issued,
            references,
            primary: ServerId(0),
            members: ServerList::empty(alloc),
            lease_end: Moment(0),
        }
    }

    pub(crate) fn issue(&mut self, version: Version)
        ensures { self.new ≡ row_issued version.0 self.old }
    {
        self.issued = version;
    }

    pub(crate) fn grant(&mut self, version: Version, primary: ServerId, members: ServerList)
        ensures { self.new ≡ row_granted version.0 primary.0 members self.old }
    {
        self.granted = version;
        self.issued = Version(self.issued.0.max(version.0));
        self.primary = primary;
        self.members = members;
        self.lease_end = Moment(0);
    }

    pub(crate) fn put(
        &mut self,
        granted: Version,
        issued: Version,
        primary: ServerId,
        members: ServerList,
    )
        ensures { self.new ≡ row_put granted.0 issued.0 primary.0 members self.old }
    {
        self.granted = granted;
        self.issued = issued;
        self.primary = primary;
        self.members = members;
    }

    pub(crate) fn restart(&mut self, until: Moment, usual: Shape)
        ensures { self.new ≡ row_restarted until.0 usual self.old }
    {
        self.shape = known_shape(usual, self.shape);
        if self.granted.0 > 0 {
            self.lease_end = until;
        }
    }

    pub(crate) fn set_end(&mut self, moment: Moment)
        ensures { self.new ≡ row_ended moment.0 self.old }
    {
        self.lease_end = moment;
    }

    pub(crate) fn share(&mut self)
        requires { self.old.references < counter_limit }
        ensures { self.new ≡ row_shared self.old }
    {
        self.references += 1;
    }

    pub(crate) fn leave(&mut self)
        requires { 0 < self.old.references }
        ensures { self.new ≡ row_left self.old }
    {
        self.references -= 1;
    }
}

// A shape that isn't known is the usual one.
pub(crate) fn known_shape(usual: Shape, shape: Shape) -> Shape
    ensures { result ≡ known_shape usual shape }
{
    if shape.chunk == 0 { usual } else { shape }
}
