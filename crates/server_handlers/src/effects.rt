//! What a step gives, as far as it was taken.

ghost use Rattle.std.specs.Prelude.{◌≡◌, ◌++◌, ◌∷◌, [], OnOk};

use gfs_types::lists::Sequence;
use messages::message::Message;
use messages::message_lists::MessageList;
use protocol::seen::{Seen, SeenList};
use replica_store::change::{ChangeList, StoreChange};
use replica_store::fault::ReplicaStoreFault;
use std::alloc::Global;

/// The messages to send, the changes of the disk, and what is seen, each in order.
#[derive(Drop)]
pub struct ServerEffects {
    pub sent: MessageList,
    pub changes: ChangeList,
    pub seen: SeenList,
}

impl ServerEffects {
    /// Nothing so far. Takes no memory.
    pub fn none(alloc: Global) -> ServerEffects
        ensures { result ≡ record { sent = []; changes = []; seen = [] } }
    {
        ServerEffects {
            sent: Sequence::empty(alloc),
            changes: Sequence::empty(alloc),
            seen: Sequence::empty(alloc),
        }
    }

    pub fn send(&mut self, message: Message) -> Result<(), ReplicaStoreFault>
        ensures { OnOk result (self.new ≡ record self.old { sent = self.old.sent ++ message ∷ [] }) }
    {
        self.sent.push(message)?;
        Ok(())
    }

    pub fn change(&mut self, change: StoreChange) -> Result<(), ReplicaStoreFault>
        ensures { OnOk result (self.new ≡ record self.old { changes = self.old.changes ++ change ∷ [] }) }
    {
        self.changes.push(change)?;
        Ok(())
    }

    pub fn show(&mut self, seen: Seen) -> Result<(), ReplicaStoreFault>
        ensures { OnOk result (self.new ≡ record self.old { seen = self.old.seen ++ seen ∷ [] }) }
    {
        self.seen.push(seen)?;
        Ok(())
    }
}
