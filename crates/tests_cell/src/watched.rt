//! A cell that takes events and then goes on by itself, and what its first client's appends come to.

use crate::rows::Row;
use bytes::Bytes;
use gfs_types::answer::Answer;
use gfs_types::call::Call;
use gfs_types::ids::{ClientId, Fd, Moment, Node, ServerId};
use gfs_types::lists::Text;
use gfs_types::no_memory::NoMemory;
use gfs_types::refusal::Refusal;
use messages::event::Event;
use script::script_fault::ScriptFault;
use shell::making::{ScriptCell, new_cell};
use std::alloc::Global;

/// The client whose appends are watched, and the one that reads.
const WRITER: ClientId = ClientId(1);

const READER: ClientId = ClientId(2);

const SERVERS: u16 = 3;

/// How many rounds of ticks a call may need: more than each one's attempts take.
const MOST_ROUNDS: u64 = 2_000;

/// A record that was answered to stand at an offset.
#[derive(Drop)]
struct Placed {
    offset: u64,
    record: Bytes,
}

/// A cell, its clock, and the appends of its first client.
#[derive(Drop)]
pub(crate) struct Watched {
    alloc: Global,
    cell: ScriptCell<Global>,
    clock: Moment,
    /// Of each message, by its number, whether it came.
    came: Vec<bool>,
    /// The number of the message that is looked at next as the cell goes on.
    next: u64,
    /// What the writer's open call appends.
    appending: Option<Bytes>,
    placed: Vec<Placed>,
    /// The answer that came last.
    last: Option<Answer>,
    /// Appends that memory was refused for: they were answered so, or never, since the writer is down.
    pub lost: u64,
    /// Appends that were answered as none may be, and offsets that were answered twice.
    pub faults: u64,
}

/// What a call appends.
fn record_of(event: &Event) -> Result<Option<Bytes>, NoMemory> {
    match event {
        Event::Call {
            client,
            call: Call::Append(_, record),
            ..
        } if *client == WRITER => Ok(Some(record.clone()?)),
        _ => Ok(None),
    }
}

fn raise(count: &mut u64) {
    *count = count.saturating_add(1);
}

impl Watched {
    pub fn new(alloc: Global, row: &Row) -> Result<Watched, ScriptFault> {
        let cell = new_cell(alloc, alloc, &row.options())?;
        Ok(Watched {
            alloc,
            cell,
            clock: Moment(0),
            came: Vec::new(alloc),
            next: 1,
            appending: None,
            placed: Vec::new(alloc),
            last: None,
            lost: 0,
            faults: 0,
        })
    }

    fn is_open(&self, client: ClientId) -> bool {
        self.cell.world.has_open_call(client)
    }

    /// How many records were answered to stand somewhere.
    pub fn count(&self) -> usize {
        self.placed.len()
    }

    fn stands_at(&self, offset: u64) -> bool {
        self.placed.iter().any(|p| p.offset == offset)
    }

    /// The writer's append of this record is over.
    fn take_answer(&mut self, record: Bytes, answer: Option<&Answer>) -> Result<(), NoMemory> {
        match answer {
            Some(Answer::At(offset)) => {
                let offset = *offset;
                if self.stands_at(offset) {
                    raise(&mut self.faults);
                }
                self.placed.push(Placed { offset, record })?;
            }
            Some(Answer::Refused(Refusal::BadFd | Refusal::NoReplica | Refusal::Failed)) => {}
            Some(Answer::Refused(Refusal::NoMemory)) | None => raise(&mut self.lost),
            Some(_) => raise(&mut self.faults),
        }
        Ok(())
    }

    /// A message comes, if it was sent.
    fn mark_arrived(&mut self, number: u64) -> Result<(), NoMemory> {
        if number > self.cell.world.message_count() {
            return Ok(());
        }
        for _ in self.came.len() as u64..=number {
            self.came.push(false)?;
        }
        if let Some(came) = self.came.get_mut(number as usize) {
            *came = true;
        }
        Ok(())
    }

    fn has_come(&self, number: u64) -> bool {
        matches!(self.came.get(number as usize), Some(true))
    }

    /// What an event tells, before it comes: the clock, a message, and what the writer's call appends, unless one is open.
    fn note(&mut self, event: &Event, is_open: bool) -> Result<(), NoMemory> {
        match event {
            Event::Call { now, .. } | Event::Tick { now, .. } | Event::Restart { now, .. } => {
                self.clock = self.clock.max(*now);
            }
            Event::Deliver { number, now } => {
                self.clock = self.clock.max(*now);
                self.mark_arrived(*number)?;
            }
            Event::Rot { .. } | Event::Fuse { .. } => {}
        }
        if !is_open {
            self.appending = record_of(event)?;
        }
        Ok(())
    }

    /// The writer's append is over, if no call of the writer is open any more. A client that is down takes none.
    fn close(&mut self, was_open: bool, answer: Option<&Answer>) -> Result<(), NoMemory> {
        if self.is_open(WRITER) {
            return Ok(());
        }
        let is_taken = was_open || answer.is_some();
        if let Some(record) = self.appending.take() {
            if is_taken {
                return self.take_answer(record, answer);
            }
        }
        Ok(())
    }

    /// One event.
    pub fn take(&mut self, event: Event) -> Result<(), NoMemory> {
        let was_open = self.is_open(WRITER);
        let noted = self.note(&event, was_open);
        if noted.is_err() {
            drop(event);
            return noted;
        }
        let answer = self.cell.world.step(event);
        let closed = self.close(was_open, answer.as_ref());
        if answer.is_some() {
            self.last = answer;
        }
        closed
    }

    /// Events, one after another.
    pub fn take_all(&mut self, events: &[Event]) -> Result<(), NoMemory> {
        let alloc = self.alloc;
        for event in events {
            self.take(event.copy(alloc)?)?;
        }
        Ok(())
    }

    /// A node begins again.
    pub fn restart(&mut self, node: Node) -> Result<(), NoMemory> {
        let now = self.clock;
        self.take(Event::Restart { node, now })
    }

    /// The master and each server begin again.
    pub fn restart_all(&mut self) -> Result<(), NoMemory> {
        self.restart(Node::Master)?;
        for server in 1..=SERVERS {
            self.restart(Node::Server(ServerId(server)))?;
        }
        Ok(())
    }

    /// Each message that didn't come yet comes, the lowest number first.
    fn deliver(&mut self) -> Result<(), NoMemory> {
        for _ in 0..u64::MAX {
            let number = self.next;
            if number > self.cell.world.message_count() {
                return Ok(());
            }
            self.next = number.saturating_add(1);
            if !self.has_come(number) {
                let now = self.clock;
                self.take(Event::Deliver { number, now })?;
            }
        }
        Ok(())
    }

    fn tick(&mut self, node: Node) -> Result<(), NoMemory> {
        let now = self.clock;
        self.take(Event::Tick { node, now })
    }

    fn tick_all(&mut self) -> Result<(), NoMemory> {
        self.clock = Moment(self.clock.0.saturating_add(100));
        for server in 1..=SERVERS {
            self.tick(Node::Server(ServerId(server)))?;
        }
        self.deliver()?;
        self.tick(Node::Master)?;
        self.deliver()?;
        self.tick(Node::Client(WRITER))?;
        self.tick(Node::Client(READER))?;
        self.deliver()
    }

    /// What is on its way comes, and nodes tick until no call is open. Tells whether none is then.
    pub fn go_on(&mut self) -> Result<bool, NoMemory> {
        self.deliver()?;
        for _ in 0..MOST_ROUNDS {
            if !self.is_open(WRITER) && !self.is_open(READER) {
                return Ok(true);
            }
            self.tick_all()?;
        }
        Ok(false)
    }

    /// What a client is answered.
    fn ask(&mut self, client: ClientId, call: Call) -> Result<Option<Answer>, NoMemory> {
        self.last = None;
        let now = self.clock;
        self.take(Event::Call { client, call, now })?;
        self.go_on()?;
        Ok(self.last.take())
    }

    /// Whether this client reads each record where it was answered to stand.
    fn finds_by(&mut self, client: ClientId, path: &str) -> Result<bool, NoMemory> {
        let open = Call::Open(Text::from_str(path, self.alloc)?);
        let Some(Answer::Fd(fd)) = self.ask(client, open)? else {
            return Ok(false);
        };
        let mut are_found = true;
        for place in 0..self.count() {
            are_found &= self.finds(client, fd, place)?;
        }
        Ok(are_found)
    }

    fn is_placed(&self, place: usize, bytes: &[u8]) -> bool {
        match self.placed.get(place) {
            Some(placed) => placed.record.as_slice() == bytes,
            None => false,
        }
    }

    fn finds(&mut self, client: ClientId, fd: Fd, place: usize) -> Result<bool, NoMemory> {
        let read = match self.placed.get(place) {
            Some(placed) => Call::Read(fd, placed.offset, placed.record.len() as u64),
            None => return Ok(false),
        };
        match self.ask(client, read)? {
            Some(Answer::Bytes { bytes, .. }) => Ok(self.is_placed(place, bytes.as_slice())),
            _ => Ok(false),
        }
    }

    /// Whether a client that opens the file anew reads each record where it was answered to stand: the reader, or the writer where the
    /// reader is down.
    pub fn finds_all(&mut self, path: &str) -> Result<bool, NoMemory> {
        if self.placed.is_empty() {
            return Ok(true);
        }
        let now = self.clock;
        let call = Call::List(Text::from_str("/", self.alloc)?);
        self.last = None;
        self.take(Event::Call {
            client: READER,
            call,
            now,
        })?;
        if self.is_open(READER) {
            self.go_on()?;
            self.finds_by(READER, path)
        } else {
            self.finds_by(WRITER, path)
        }
    }
}
