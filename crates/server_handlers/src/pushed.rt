//! The data that were pushed to a server.

ghost use Rattle.std.specs.Prelude.{◌≡◌, [], max, OnOk, OnErr};
ghost use Rattle.std.specs.Option.{option_copied};
ghost use Rattle.data_push.specs.Buffers.{push_buffer, data_of, with_data, without_data};

use bytes::Bytes;
use data_push::Buffer;
use gfs_types::ids::DataId;
use gfs_types::no_memory::NoMemory;
use std::alloc::Global;
use std::marker::Model;

/// A buffer of pushed data that takes no memory before the first.
#[derive(Drop)]
pub(crate) struct Pushed {
    entries: u32,
    kept: Option<Buffer>,
}

impl Model for Pushed {
    ghost use Rattle.std.specs.Prelude.{◌≡◌, max};
    ghost use Rattle.data_push.specs.Buffers.{PushBuffer};
    ghost use Rattle.server_handlers.specs.Pushing.{pushed_in};

    ghost Value = { PushBuffer };

    ghost view = { λ p. pushed_in p.entries p.kept };

    ghost invariant = { λ p. (pushed_in p.entries p.kept).limit ≡ max 1 p.entries };
}

impl Pushed {
    pub(crate) fn new(entries: u32) -> Pushed
        ensures { result ≡ push_buffer [] (max 1 entries) }
    {
        Pushed {
            entries,
            kept: None,
        }
    }

    // At an error nothing changed.
    pub(crate) fn put(&mut self, alloc: Global, id: DataId, bytes: Bytes) -> Result<(), NoMemory>
        ensures ok { OnOk result (self.new ≡ with_data self.old id bytes) }
        ensures err { OnErr result (self.new ≡ self.old) }
    {
        let mut buffer = match self.kept.take() {
            None => Buffer::new(alloc, self.entries)?,
            Some(buffer) => buffer,
        };
        let put = buffer.put(id, bytes);
        self.kept = Some(buffer);
        match put {
            Ok(()) => Ok(()),
            Err(_) => Err(NoMemory),
        }
    }

    pub(crate) fn get(&self, id: DataId) -> Option<&Bytes>
        ensures { option_copied result ≡ data_of self.now id }
    {
        match &self.kept {
            None => None,
            Some(buffer) => buffer.get(id),
        }
    }

    pub(crate) fn take(&mut self, id: DataId)
        ensures { self.new ≡ without_data self.old id }
    {
        if let Some(buffer) = &mut self.kept {
            buffer.take(id);
        }
    }
}
