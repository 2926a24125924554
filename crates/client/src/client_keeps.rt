//! What a step looks up in a client, and what it changes in it.

ghost use Rattle.std.specs.Prelude.{◌≡◌, ◌<◌, ◌+◌, nat_lt, Some, None, IfOk, OnOk};
ghost use Rattle.protocol.specs.Client.{client_begins};
ghost use Rattle.protocol.specs.ClientCache.{with_location};
ghost use Rattle.protocol.specs.ClientFiles.{with_last_append};
ghost use Rattle.protocol.specs.ClientAttempts.{forgets};
ghost use Rattle.protocol.specs.ClientTakes.{is_own_data, opens};
ghost use Rattle.client.specs.Doing.{doing};

use crate::client::Client;
use client_calls::effects::ClientEffects;
use client_calls::sent::Sent;
use client_calls::sums::sum;
use client_state::call::{CurrentCall, ToldChunk};
use client_state::kept::{Cached, Place};
use gfs_types::answer::Answer;
use gfs_types::config::Config;
use gfs_types::ids::{DataId, Fd, FileId, Moment};
use gfs_types::no_memory::NoMemory;
use gfs_types::shape::Shape;
use messages::message::Location;
use std::alloc::Global;

impl Client {
    /// Its settings.
    pub fn config(&self) -> Config
        ensures value { result ≡ self.now.config }
        ensures chunk { 0 < result.chunk }
    {
        self.config
    }

    /// Its number.
    pub fn id(&self) -> u64
        ensures { result ≡ self.now.id }
    {
        self.id
    }

    /// The greatest moment that it was given, in milliseconds.
    pub fn clock(&self) -> u64
        ensures { result ≡ self.now.now }
    {
        self.clock
    }

    /// Where it takes its memory.
    pub fn alloc(&self) -> Global {
        self.alloc
    }

    /// Whether these are the data of that number that it pushed.
    pub fn is_own_data(&self, id: DataId, number: u64) -> bool
        ensures { result ≡ is_own_data (client_begins self.now) id number }
    {
        id.client.0 == self.id && id.seq == number
    }

    /// Whether an attempt may still be answered: its deadline and the clock bound haven't come.
    pub fn is_waiting(&self, current: &CurrentCall) -> bool
        ensures { result ≡ nat_lt self.now.now (current.now.deadline.0 + self.now.config.skew_ms) }
    {
        self.clock < current.deadline.0 || self.clock - current.deadline.0 < self.config.skew_ms
    }

    /// The open call is taken out.
    pub fn take_current(&mut self) -> Option<CurrentCall>
        ensures value { result ≡ self.old.current }
        ensures rest { self.new ≡ record self.old { current = None } }
    {
        self.current.take()
    }

    /// A step that gives nothing.
    pub fn rests(&self) -> ClientEffects
        ensures { client_begins self.now ≡ doing self.now result }
    {
        ClientEffects {
            sent: Sent::none(self.alloc),
            answer: None,
        }
    }

    /// A file is opened, under the next descriptor.
    pub fn opens(&mut self, file: FileId, shape: Shape) -> Result<ClientEffects, NoMemory>
        ensures { IfOk result (λ e. opens (client_begins self.old) file.0 shape ≡ doing self.new e) }
    {
        let fd = sum(self.fd_count, 1)?;
        self.descriptors.insert(fd, file.0)?;
        self.files.open(file.0, shape, fd)?;
        self.fd_count = fd;
        Ok(self.answers(Answer::Fd(Fd(fd))))
    }

    /// A location is kept.
    pub fn keeps(&mut self, file: FileId, location: &Location) -> Result<(), NoMemory>
        ensures { OnOk result (self.new ≡ record self.old { cache = with_location self.old file.0 location.now }) }
    {
        let place = Place {
            file: file.0,
            index: location.index,
        };
        let kept = Cached {
            location: location.copy(self.alloc)?,
            told: Moment(self.clock),
            opened: Fd(self.files.last_opened(file.0)),
        };
        self.cache.put(place, kept)
    }

    /// The location is dropped.
    pub fn forgets(&mut self, current: &CurrentCall, chunk: ToldChunk)
        ensures { self.new ≡ (forgets (client_begins self.old) current.now chunk).client }
    {
        self.cache.forget(Place {
            file: current.file.0,
            index: chunk.index,
        });
    }

    /// Keeps the index at which an append to a file succeeded.
    pub fn found_end(&mut self, file: FileId, index: u64) -> Result<(), NoMemory>
        ensures { OnOk result (self.new ≡ record self.old { files = with_last_append self.old.files file.0 (Some index) }) }
    {
        self.files.set_last_append(file.0, Some(index))
    }
}
