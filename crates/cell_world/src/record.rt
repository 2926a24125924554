//! All that a cell records of its steps.

ghost use Rattle.std.specs.Prelude.{◌≡◌, [], ◌++◌, suc, length, map, OnOk};
ghost use Rattle.cell_world.specs.Kept.{blank_seen};
ghost use Rattle.protocol.specs.World.{stamped};
ghost use Rattle.cell_world.specs.Recording.{IsReady};

use crate::network::Network;
use crate::sights::Sights;
use gfs_types::no_memory::NoMemory;
use messages::message_lists::MessageList;
use protocol::seen::SeenList;
use std::alloc::Global;

/// The messages that were sent, and what was seen.
#[derive(Drop)]
pub struct CellRecord {
    pub network: Network,
    pub sights: Sights,
}

impl CellRecord {
    /// Takes no memory.
    pub fn new(alloc: Global) -> CellRecord
        ensures sent { result.network.messages ≡ [] }
        ensures seen { result.sights.seen ≡ [] }
    {
        CellRecord {
            network: Network::new(alloc),
            sights: Sights::new(alloc),
        }
    }

    /// Room for a step is made. At an error what is recorded is the same.
    pub fn reserve(&mut self) -> Result<(), NoMemory>
        ensures sent { self.new.network.messages ≡ self.old.network.messages }
        ensures seen { self.new.sights.seen ≡ self.old.sights.seen }
        ensures ready { OnOk result (IsReady self.new) }
    {
        self.network.reserve()?;
        self.sights.reserve()
    }

    /// What a step gave, and what was seen of it. Takes no memory.
    pub fn takes(&mut self, sent: MessageList, seen: SeenList)
        requires { IsReady self.old }
        ensures sent { self.new.network.messages ≡ self.old.network.messages ++ stamped (suc (length self.old.network.messages)) sent }
        ensures seen { self.new.sights.seen ≡ self.old.sights.seen ++ map blank_seen seen }
    {
        self.network.send(sent);
        self.sights.sees(seen);
    }
}
