//! An entry of a chunk's order as it was numbered.

ghost use Rattle.std.specs.Prelude.{◌≡◌, ◌<◌, ◌^◌, [], IfOk};
ghost use Rattle.std.proofs.Common.{rules};
ghost use Rattle.cell_world.specs.Kept.{mutation_of, no_data};
ghost use Rattle.gfs_types.specs.Mutations.{end_of};
ghost use Rattle.protocol.specs.Observer.{settled_as, new_entry};

use crate::extent::Extent;
use gfs_types::ids::{Serial, Version};
use gfs_types::lists::ExactClone;
use gfs_types::no_memory::NoMemory;
use machine_programs::entry::Entry;
use std::marker::Model;

/// One entry, without its bytes, and whose it is.
#[derive(Clone, Drop)]
pub struct Numbered {
    serial: u64,
    round: u64,
    extent: Extent,
    settled: bool,
}

impl Model for Numbered {
    ghost use Rattle.protocol.specs.Observer.{Placed};
    ghost use Rattle.cell_world.specs.Kept.{mutation_of};

    ghost Value = { Placed };

    ghost view = { λ n. record { serial = n.serial; seq = 0; entry = record { call = record { client = 0; number = 0 }; round = n.round; mutation = mutation_of n.extent; settled = n.settled } } };
}

impl ExactClone for Numbered {
    ghost clone_equals = { Prim.search rules };
}

impl Numbered {
    pub(crate) fn new(version: Version, serial: Serial, extent: Extent) -> Numbered
        ensures { result ≡ new_entry [] version.0 serial.0 no_data (mutation_of extent) }
    {
        Numbered {
            serial: serial.0,
            round: version.0,
            extent,
            settled: false,
        }
    }

    /// It is settled, where it has this version and serial.
    pub(crate) fn settled_as(self, version: Version, serial: Serial) -> Numbered
        ensures { result ≡ settled_as version.0 serial.0 self }
    {
        let mut after = self;
        if after.round == version.0 && after.serial == serial.0 {
            after.settled = true;
        }
        after
    }

    /// The entry, as a pad over its places; an end past every number finds no memory.
    pub(crate) fn entry(&self) -> Result<Entry, NoMemory>
        ensures entry { IfOk result (λ e. e ≡ self.now.entry) }
        ensures end { IfOk result (λ e. end_of e.mutation < 2 ^ 64) }
    {
        match self.extent.pad() {
            Some(pad) => Ok(Entry::new(0, 0, self.round, pad, self.settled)),
            None => Err(NoMemory),
        }
    }
}
