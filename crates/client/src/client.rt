//! The client: its state, its calls and its steps.

ghost use Rattle.std.specs.Prelude.{◌≡◌, ◌<◌, true, false, IfOk};
ghost use Rattle.std.specs.Option.{option_copied};
ghost use Rattle.protocol.specs.Client.{ClientState, new_client};
ghost use Rattle.protocol.specs.ClientCache.{cached, is_fresh, is_new_enough, cache_after_look};
ghost use Rattle.protocol.specs.ClientStep.{may_call, may_step, has_room_to_count, client_at};
ghost use Rattle.protocol.specs.Conforms.{ClientCalls};
ghost use Rattle.protocol.specs.Seen.{no_output};

use client_calls::effects::ClientEffects;
use client_calls::locations::Locations;
use client_calls::open_files::OpenFiles;
use client_calls::sent::Sent;
use client_state::call::CurrentCall;
use client_state::kept::{Cached, Place};
use gfs_types::answer::Answer;
use gfs_types::call::Call;
use gfs_types::config::Config;
use gfs_types::ids::{ClientId, MAX_COUNTER, Moment};
use gfs_types::no_memory::NoMemory;
use gfs_types::refusal::Refusal;
use messages::event::StepOut;
use ordered_map::number_map::NumberMap;
use std::alloc::Global;
use std::marker::Model;

/// A client. At most one call is open at it.
pub struct Client {
    pub(crate) config: Config,
    pub(crate) id: u64,
    up: bool,
    pub(crate) clock: u64,
    pub(crate) call_count: u64,
    pub(crate) number: u64,
    pub(crate) fd_count: u64,
    pub(crate) descriptors: NumberMap<u64>,
    pub(crate) files: OpenFiles,
    pub(crate) cache: Locations,
    pub(crate) current: Option<CurrentCall>,
    pub(crate) alloc: Global,
}

// Stands here, once, so that no function that lets one go, here or above, takes its fields apart.
impl Drop for Client {
    fn drop(self) {
        let Self {
            config: _,
            id: _,
            up: _,
            clock: _,
            call_count: _,
            number: _,
            fd_count: _,
            descriptors: _descriptors,
            files: _files,
            cache: _cache,
            current: _current,
            alloc: _,
        } = self;
    }
}

impl Model for Client {
    ghost use Rattle.std.specs.Prelude.{◌<◌};
    ghost use Rattle.std.specs.Coded.{codes, coded_ℕ};
    ghost use Rattle.std.specs.FinMap as table;
    ghost use Rattle.lru.specs.LruCache.{lru_cache_code};
    ghost use Rattle.protocol.specs.Client.{ClientState};

    ghost Value = { ClientState };

    ghost coded = { Prim.hlevel (codes, table.code, lru_cache_code, coded_ℕ) };

    ghost view = { λ s. record { config = s.config; id = s.id; up = s.up; now = s.clock; call_count = s.call_count; number = s.number; fd_count = s.fd_count; descriptors = s.descriptors; files = s.files; cache = s.cache; current = s.current } };

    ghost invariant = { λ s. 0 < s.config.chunk };
}

impl Client {
    /// A client with nothing open. It is up.
    pub fn new(alloc: Global, config: Config, id: ClientId) -> Result<Client, NoMemory>
        requires { 0 < config.chunk }
        ensures { IfOk result (λ c. c ≡ new_client config id.0) }
    {
        let cache = Locations::new(alloc, config.cache_entries)?;
        Ok(Client {
            config,
            id: id.0,
            up: true,
            clock: 0,
            call_count: 0,
            number: 0,
            fd_count: 0,
            descriptors: NumberMap::new(alloc),
            files: OpenFiles::new(alloc),
            cache,
            current: None,
            alloc,
        })
    }

    /// Whether it is up. One that is down takes no call and no step.
    pub fn is_up(&self) -> bool
        ensures { result ≡ self.now.up }
    {
        self.up
    }

    /// Whether a call is taken now.
    pub fn may_call(&self) -> bool
        ensures { result ≡ may_call self.now }
    {
        self.up && self.current.is_none() && self.has_room_to_count()
    }

    fn has_room_to_count(&self) -> bool
        ensures { result ≡ has_room_to_count self.now }
    {
        self.call_count < MAX_COUNTER && self.number < MAX_COUNTER && self.fd_count < MAX_COUNTER
    }

    /// Whether a message or a tick is taken.
    pub fn may_step(&self) -> bool
        ensures { result ≡ may_step self.now }
    {
        self.up && self.has_room_to_count()
    }

    /// Its clock is the greatest moment that it was given.
    pub fn move_clock(&mut self, now: Moment)
        ensures { self.new ≡ client_at self.old now.0 }
    {
        self.clock = self.clock.max(now.0);
    }

    /// It goes down, and keeps nothing but these settings and this number. Takes no memory.
    pub fn stops(&mut self, config: Config, id: u64)
        requires { 0 < config.chunk }
        ensures { self.new ≡ record (new_client config id) { up = false } }
    {
        self.config = config;
        self.id = id;
        self.up = false;
        self.clock = 0;
        self.call_count = 0;
        self.number = 0;
        self.fd_count = 0;
        self.descriptors = NumberMap::new(self.alloc);
        self.files = OpenFiles::new(self.alloc);
        self.cache.reset(config.cache_entries);
        self.current = None;
    }

    /// A call. One while another is open, or of a client that is down or with a counter at its limit, changes nothing and is not answered.
    pub fn call(&mut self, now: Moment, call: Call) -> StepOut
        ensures taken { may_call self.old ≡ true → ClientCalls self.old now.0 call result self.new }
        ensures void { may_call self.old ≡ false → self.new ≡ self.old }
        ensures unanswered { may_call self.old ≡ false → result ≡ no_output }
    {
        if self.may_call() {
            return self.take_call(now, call);
        }
        ClientEffects {
            sent: Sent::none(self.alloc),
            answer: None,
        }
        .into_out()
    }

    /// A call of a client that may take one. For want of memory it may be refused before its first message; nothing but its clock has changed then.
    pub fn take_call(&mut self, now: Moment, call: Call) -> StepOut
        ensures { ClientCalls self.old now.0 call result self.new }
    {
        self.move_clock(now);
        let Ok(effects) = self.calls(call) else {
            return self.answers(Answer::Refused(Refusal::NoMemory)).into_out();
        };
        effects.into_out()
    }

    /// The location of a chunk, where it is kept and fresh. Nothing moves.
    pub(crate) fn fresh(&self, place: Place) -> Option<&Cached>
        ensures { option_copied result ≡ cached self.now place }
    {
        let kept = self.cache.peek(place)?;
        if self.is_fresh(place.file, kept) {
            Some(kept)
        } else {
            None
        }
    }

    fn is_fresh(&self, file: u64, kept: &Cached) -> bool
        ensures { result ≡ is_fresh self.now file kept.now }
    {
        kept.opened.0 == self.files.last_opened(file) && self.is_new_enough(kept.told)
    }

    /// Whether a location that was told at a moment may be used now.
    pub fn is_new_enough(&self, told: Moment) -> bool
        ensures { result ≡ is_new_enough self.now told.0 }
    {
        self.clock.saturating_sub(told.0) < self.config.cache_ms
    }

    /// Its clock.
    pub fn now(&self) -> Moment
        ensures { result.0 ≡ self.now.now }
    {
        Moment(self.clock)
    }

    /// The location that was looked for is the one used last, or goes, if it isn't fresh. Takes no memory.
    pub(crate) fn look(&mut self, place: Place)
        ensures { self.new ≡ record self.old { cache = cache_after_look self.old place } }
    {
        if self.fresh(place).is_some() {
            self.cache.promote(place);
        } else {
            self.cache.forget(place);
        }
    }
}
