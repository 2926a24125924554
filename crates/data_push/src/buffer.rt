//! The buffer of pushed data.

ghost use Rattle.std.specs.Prelude.{◌≡◌, [], max, OnOk, OnErr, IfOk, IfErr, IsOk, IsSome};
ghost use Rattle.std.specs.Option.{option_copied};
ghost use Rattle.data_push.specs.Buffers.{push_buffer, data_of, with_data, without_data};

use bytes::Bytes;
use gfs_types::ids::DataId;
use lru::{DefaultHasher, LruCache as Lru};
use std::alloc::{AllocError, Allocator, Global};
use std::marker::Model;
use std::num::NonZeroUsize;

/// Data that were pushed to a server and that no mutation has used yet, at most so many (section 3.2).
#[derive(Drop)]
pub struct Buffer<A: Allocator = Global> {
    kept: Lru<DataId, Bytes, DefaultHasher, A>,
}

impl<A: Allocator> Model for Buffer<A> {
    ghost use Rattle.data_push.specs.Buffers.{PushBuffer, IsWithinLimit, push_buffer};

    ghost Value = { PushBuffer };

    ghost view = { λ b. push_buffer b.kept.entries b.kept.cap };

    ghost invariant = { λ b. IsWithinLimit (push_buffer b.kept.entries b.kept.cap) };
}

impl<A: Allocator + Clone> Buffer<A> {
    /// An empty buffer for at most `entries` data, and for at least one: 0 counts as 1.
    pub fn new(alloc: A, entries: u32) -> Result<Buffer<A>, AllocError>
        ensures { IfOk result (λ b. b ≡ push_buffer [] (max 1 entries)) }
    {
        let entries = NonZeroUsize::new(entries as usize).unwrap_or(NonZeroUsize::MIN);
        let kept = Lru::with_hasher(alloc, entries, DefaultHasher::new())?;
        Ok(Buffer { kept })
    }

    /// Keeps the data as the newest, in place of any under the same id. Of a full buffer the oldest data are dropped.
    /// Where memory is refused the data are handed back, and the buffer stays as it was. In place of older data it takes none.
    pub fn put(&mut self, id: DataId, bytes: Bytes) -> Result<(), (DataId, Bytes)>
        ensures kept { OnOk result (self.new ≡ with_data self.old id bytes) }
        ensures unchanged { OnErr result (self.new ≡ self.old) }
        ensures handed_back { IfErr result (λ e. e ≡ (id, bytes)) }
        ensures in_place { IsSome (data_of self.old id) → IsOk result }
    {
        match self.kept.put(id, bytes) {
            Ok(_) => Ok(()),
            Err(refused) => Err(refused.value),
        }
    }

    /// The data that were last put under that id, if they are still there. They stay, and no newer than they were.
    pub fn get(&self, id: DataId) -> Option<&Bytes>
        ensures { option_copied result ≡ data_of self.now id }
    {
        self.kept.peek(&id)
    }

    /// Takes out the data that were last put under that id, if they are still there.
    pub fn take(&mut self, id: DataId) -> Option<Bytes>
        ensures data { result ≡ data_of self.old id }
        ensures taken { self.new ≡ without_data self.old id }
    {
        self.kept.pop(&id)
    }
}
