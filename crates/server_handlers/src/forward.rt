//! How a member applies what its primary forwards (section 3.1).

ghost use Rattle.std.specs.Prelude.{◌≡◌, ◌+◌, ◌-◌, [], length, nat_le, OnOk};
ghost use Rattle.data_push.specs.Buffers.{data_of};
ghost use Rattle.replica_store.specs.Replicas.{is_writable_at};
ghost use Rattle.protocol.specs.Server.{chunk_limit, frame, takes_data};
ghost use Rattle.protocol.specs.ServerWrites.{takes_forward, applies_change, applies_data, applies_pad, member_stores, nacks};
ghost use Rattle.server_handlers.specs.Doing.{doing};

use crate::effects::ServerEffects;
use crate::server::Server;
use gfs_types::ids::{DataId, Handle, Node, Serial, Version};
use gfs_types::refusal::Refusal;
use messages::message::{Body, Change};
use replica_store::change::StoreChange;
use replica_store::fault::ReplicaStoreFault;
use replica_store::store::ReplicaStore;

/// What a primary asks of a member.
#[derive(Clone, Copy)]
pub struct MemberRequest {
    pub primary: Node,
    pub handle: Handle,
    pub version: Version,
    pub serial: Serial,
    pub id: DataId,
    /// Bytes of the chunk, at most, as the primary tells.
    pub chunk: u32,
}

impl<S: ReplicaStore> Server<S> {
    /// A Forward.
    pub fn takes_forward(
        &mut self,
        effects: &mut ServerEffects,
        asked: MemberRequest,
        change: Change,
    ) -> Result<(), ReplicaStoreFault>
        requires { self.old.state.under_way ≡ [] }
        ensures goes { OnOk result (takes_forward (doing self.old.state effects.old) asked.primary asked.handle.0 asked.version.0 asked.serial.0 asked.id asked.chunk change ≡ doing self.new.state effects.new) }
        ensures frame { frame self.new.state ≡ frame self.old.state }
    {
        let Some(row) = self.store.row(asked.handle) else {
            return self.nacks(effects, asked, Refusal::NoChunk);
        };
        if row.version != asked.version {
            return self.nacks(effects, asked, Refusal::Version);
        }
        if asked.serial <= row.serial {
            return self.nacks(effects, asked, Refusal::OldSerial);
        }
        self.applies_change(effects, asked, change)
    }

    fn nacks(
        &self,
        effects: &mut ServerEffects,
        asked: MemberRequest,
        refusal: Refusal,
    ) -> Result<(), ReplicaStoreFault>
        ensures { OnOk result (nacks (doing self.now.state effects.old) asked.primary asked.handle.0 asked.version.0 asked.serial.0 refusal ≡ doing self.now.state effects.new) }
    {
        let MemberRequest {
            primary,
            handle,
            version,
            serial,
            ..
        } = asked;
        let body = Body::Nacked {
            handle,
            version,
            serial,
            refusal,
        };
        self.send(effects, primary, body)
    }

    fn applies_change(
        &mut self,
        effects: &mut ServerEffects,
        asked: MemberRequest,
        change: Change,
    ) -> Result<(), ReplicaStoreFault>
        requires { self.old.state.under_way ≡ [] }
        ensures goes { OnOk result (applies_change (doing self.old.state effects.old) asked.primary asked.handle.0 asked.version.0 asked.serial.0 asked.id asked.chunk change ≡ doing self.new.state effects.new) }
        ensures frame { frame self.new.state ≡ frame self.old.state }
    {
        match change {
            Change::Write(offset) | Change::Append(offset) => {
                self.applies_data(effects, asked, offset)
            }
            Change::Pad(offset, end) => self.applies_pad(effects, asked, offset, end),
        }
    }

    fn applies_data(
        &mut self,
        effects: &mut ServerEffects,
        asked: MemberRequest,
        offset: u64,
    ) -> Result<(), ReplicaStoreFault>
        requires { self.old.state.under_way ≡ [] }
        ensures goes { OnOk result (applies_data (doing self.old.state effects.old) asked.primary asked.handle.0 asked.version.0 asked.serial.0 asked.id asked.chunk offset (data_of self.old.state.pushed asked.id) ≡ doing self.new.state effects.new) }
        ensures frame { frame self.new.state ≡ frame self.old.state }
    {
        let Some(bytes) = self.pushed.get(asked.id) else {
            return self.nacks(effects, asked, Refusal::NoData);
        };
        let bytes = bytes.clone()?;
        let count = bytes.len() as u64;
        if !self.is_within(asked.chunk, offset, count) {
            return Ok(());
        }
        let change = StoreChange::Write {
            handle: asked.handle,
            serial: asked.serial,
            offset,
            bytes,
        };
        self.member_stores(effects, asked, change, offset, offset + count)
    }

    fn applies_pad(
        &mut self,
        effects: &mut ServerEffects,
        asked: MemberRequest,
        offset: u64,
        end: u64,
    ) -> Result<(), ReplicaStoreFault>
        requires { self.old.state.under_way ≡ [] }
        ensures goes { OnOk result (applies_pad (doing self.old.state effects.old) asked.primary asked.handle.0 asked.version.0 asked.serial.0 asked.id asked.chunk offset (end - offset) ≡ doing self.new.state effects.new) }
        ensures frame { frame self.new.state ≡ frame self.old.state }
    {
        let count = end.saturating_sub(offset);
        if !self.is_within(asked.chunk, offset, count) {
            return Ok(());
        }
        let change = StoreChange::Zero {
            handle: asked.handle,
            serial: asked.serial,
            offset,
            count,
        };
        self.member_stores(effects, asked, change, offset, offset + count)
    }

    // A member applies a mutation that lies within the chunk.
    fn member_stores(
        &mut self,
        effects: &mut ServerEffects,
        asked: MemberRequest,
        change: StoreChange,
        offset: u64,
        end: u64,
    ) -> Result<(), ReplicaStoreFault>
        requires { self.old.state.under_way ≡ [] }
        ensures goes { OnOk result (member_stores (is_writable_at self.old.state.disk asked.handle.0 offset end) (takes_data (doing self.old.state effects.old) asked.id) asked.primary asked.handle.0 asked.version.0 asked.serial.0 change ≡ doing self.new.state effects.new) }
        ensures frame { frame self.new.state ≡ frame self.old.state }
    {
        let is_writable = self.store.is_writable(asked.handle, offset, end)?;
        self.pushed.take(asked.id);
        if !is_writable {
            self.drops_corrupt(effects, asked.handle)?;
            return self.nacks(effects, asked, Refusal::Corrupt);
        }
        effects.change(change)?;
        let MemberRequest {
            primary,
            handle,
            version,
            serial,
            ..
        } = asked;
        let body = Body::Acked {
            handle,
            version,
            serial,
        };
        self.send(effects, primary, body)
    }

    /// Whether so many bytes lie within a chunk of a size that was told.
    pub fn is_within(&self, told: u32, offset: u64, count: u64) -> bool
        ensures { result ≡ nat_le (offset + count) (chunk_limit self.now.state told) }
    {
        let chunk = self.chunk_limit(told);
        count <= chunk && offset <= chunk - count
    }
}
