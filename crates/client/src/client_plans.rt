//! What an attempt sends next. A plan takes all the memory that it needs, and changes nothing.

ghost use Rattle.std.specs.Prelude.{◌≡◌, ◌<◌, suc, IfOk, None};
ghost use Rattle.std.specs.Option.{option_copied};
ghost use Rattle.protocol.specs.Client.{file_chunk, from_client};
ghost use Rattle.protocol.specs.ClientAttempts.{ask_planned, read_body, read_planned, again_planned, push_planned, push_planned_to, mutate_planned, name_planned, chunk_of, will_do};
ghost use Rattle.client.specs.Attempts.{next_read, planned_at, asking, with_kept, attempt_at, before_attempt, planned_attempt};

use crate::client::Client;
use client_calls::asked::{
    bytes_to_send, chunk_to_find, first_hop, hops_after, is_length, is_look, is_mutation,
    read_count, read_start, target_of, wanted_by,
};
use client_calls::attempt::Attempt;
use client_calls::plan::CallPlan;
use client_calls::sent::Sent;
use client_calls::sums::sum;
use client_state::call::{CurrentCall, Stage, ToldChunk};
use client_state::kept::{Cached, Place};
use gfs_types::ids::{ClientId, DataId, Moment, Node, ServerId};
use gfs_types::no_memory::NoMemory;
use messages::message::{Body, Group, Holder, Location, Message};
use messages::message_lists::HolderList;

impl Client {
    fn next_number(&self) -> Result<u64, NoMemory>
        ensures { IfOk result (λ number. number ≡ suc self.now.number) }
    {
        sum(self.number, 1)
    }

    fn message_to(&self, receiver: Node, body: Body) -> Result<Sent, NoMemory>
        ensures { IfOk result (λ sent. sent ≡ from_client self.now receiver body) }
    {
        Sent::one(
            self.alloc,
            Message {
                number: 0,
                sender: Node::Client(ClientId(self.id)),
                receiver,
                body,
            },
        )
    }

    /// The size of the chunks of a file that is open, as its Open was told it. It is never 0, whatever was told.
    pub fn chunk_size(&self, file: u64) -> u64
        ensures size { result ≡ file_chunk self.now file }
        ensures some { 0 < result }
    {
        u64::from(self.files.chunk(file).unwrap_or(self.config.chunk)).max(1)
    }

    /// The master is asked for a chunk.
    pub fn ask_planned(&self, current: &CurrentCall) -> Result<CallPlan, NoMemory>
        ensures { IfOk result (λ plan. plan ≡ ask_planned self.now current.now) }
    {
        let number = self.next_number()?;
        let body = Body::Ask {
            number,
            file: current.file,
            wanted: wanted_by(current.index, &current.asked),
            deadline: current.deadline,
            lost_lease: current.lost_lease,
        };
        Ok(CallPlan {
            stage: Stage::AskedWhere(number),
            sent: self.message_to(Node::Master, body)?,
            number,
        })
    }

    /// What a server is asked that is to read, or to tell its length.
    fn read_body(
        &self,
        current: &CurrentCall,
        chunk: ToldChunk,
        holder: Holder,
    ) -> Result<Body, NoMemory>
        ensures { IfOk result (λ body. body ≡ read_body self.now current.now chunk holder) }
    {
        let number = self.next_number()?;
        if is_length(&current.asked) {
            return Ok(Body::Len {
                number,
                handle: chunk.handle,
                version: holder.version,
            });
        }
        let size = self.chunk_size(current.file.0);
        Ok(Body::Read {
            number,
            handle: chunk.handle,
            version: holder.version,
            offset: read_start(size, current.index, &current.asked),
            count: read_count(size, current.index, &current.asked)?,
        })
    }

    fn read_planned(
        &self,
        current: &CurrentCall,
        chunk: ToldChunk,
        holder: Holder,
        rest: &[Holder],
    ) -> Result<CallPlan, NoMemory>
        ensures { IfOk result (λ plan. plan ≡ read_planned self.now current.now chunk holder rest.now) }
    {
        let number = self.next_number()?;
        let left = HolderList::new(Vec::from_clones(self.alloc, rest)?);
        let body = self.read_body(current, chunk, holder)?;
        Ok(CallPlan {
            stage: Stage::SentRead {
                chunk,
                left,
                number,
            },
            sent: self.message_to(Node::Server(holder.server), body)?,
            number,
        })
    }

    /// The first of these servers is asked. None: there is none.
    pub fn next_read(
        &self,
        current: &CurrentCall,
        chunk: ToldChunk,
        holders: &[Holder],
    ) -> Result<Option<CallPlan>, NoMemory>
        ensures { IfOk result (λ plan. plan ≡ next_read self.now current.now chunk holders.now) }
    {
        let Some((holder, rest)) = holders.split_first() else {
            return Ok(None);
        };
        let plan = self.read_planned(current, chunk, *holder, rest)?;
        Ok(Some(plan))
    }

    /// It waits for a tick, and then asks again.
    fn again_planned(&self) -> CallPlan
        ensures { result ≡ again_planned self.now }
    {
        CallPlan {
            stage: Stage::MustAskAgain,
            sent: Sent::none(self.alloc),
            number: self.number,
        }
    }

    /// The data go to that member, which passes them on.
    fn push_planned_to(
        &self,
        current: &CurrentCall,
        chunk: ToldChunk,
        group: &Group,
        first: Option<ServerId>,
    ) -> Result<CallPlan, NoMemory>
        ensures { IfOk result (λ plan. plan ≡ push_planned_to self.now current.now chunk group.now first) }
    {
        let Some(first) = first else {
            return Ok(self.again_planned());
        };
        let number = self.next_number()?;
        let body = Body::Push {
            data: self.data_id(number),
            bytes: bytes_to_send(
                self.chunk_size(current.file.0),
                current.index,
                &current.asked,
            )?,
            rest: hops_after(self.alloc, group.members.as_slice(), first.0)?,
        };
        Ok(CallPlan {
            stage: Stage::SentData {
                chunk,
                primary: group.primary,
                number,
            },
            sent: self.message_to(Node::Server(first), body)?,
            number,
        })
    }

    fn data_id(&self, number: u64) -> DataId
        ensures { result ≡ record { client = record { 0 = self.now.id }; seq = number } }
    {
        DataId {
            client: ClientId(self.id),
            seq: number,
        }
    }

    /// The data go to the members, from the lowest on; without a primary the client asks again.
    fn push_planned(
        &self,
        current: &CurrentCall,
        chunk: ToldChunk,
        group: &Option<Group>,
    ) -> Result<CallPlan, NoMemory>
        ensures { IfOk result (λ plan. plan ≡ push_planned self.now current.now chunk group.now) }
    {
        let Some(group) = group else {
            return Ok(self.again_planned());
        };
        let first = first_hop(self.alloc, group.members.as_slice())?;
        self.push_planned_to(current, chunk, group, first)
    }

    /// The primary is asked to place the data of that number.
    pub fn mutate_planned(
        &self,
        current: &CurrentCall,
        chunk: ToldChunk,
        primary: ServerId,
        number: u64,
    ) -> Result<CallPlan, NoMemory>
        ensures { IfOk result (λ plan. plan ≡ mutate_planned self.now current.now chunk primary number) }
    {
        let body = Body::Mutate {
            data: self.data_id(number),
            handle: chunk.handle,
            version: chunk.round,
            target: target_of(
                self.chunk_size(current.file.0),
                current.index,
                &current.asked,
            ),
            deadline: current.deadline,
        };
        Ok(CallPlan {
            stage: Stage::SentMutate { chunk, number },
            sent: self.message_to(Node::Server(primary), body)?,
            number: self.number,
        })
    }

    /// A name call's request: Open and List only look.
    pub fn name_planned(&self, current: &CurrentCall) -> Result<CallPlan, NoMemory>
        ensures { IfOk result (λ plan. plan ≡ name_planned self.now current.now) }
    {
        let call = current.asked.copy(self.alloc)?;
        let body = if is_look(&current.asked) {
            Body::Look {
                call_number: current.number,
                call,
            }
        } else {
            Body::Name {
                call_number: current.number,
                deadline: current.deadline,
                call,
            }
        };
        Ok(CallPlan {
            stage: Stage::AskedNames,
            sent: self.message_to(Node::Master, body)?,
            number: self.number,
        })
    }

    /// What an attempt goes on with at a location. None: nobody is left to serve a read.
    pub fn planned_at(
        &self,
        current: &CurrentCall,
        location: &Location,
    ) -> Result<Option<CallPlan>, NoMemory>
        ensures { IfOk result (λ plan. plan ≡ planned_at self.now current.now location.now) }
    {
        let chunk = chunk_of(location);
        if is_mutation(&current.asked) {
            let plan = self.push_planned(current, chunk, &location.group)?;
            return Ok(Some(plan));
        }
        self.next_read(current, chunk, location.holders.as_slice())
    }

    fn asking(&self, mut current: CurrentCall, looked: Option<Place>) -> Result<Attempt, NoMemory>
        ensures { IfOk result (λ attempt. attempt ≡ asking self.now current looked) }
    {
        let plan = self.ask_planned(&current)?;
        current.lost_lease = false;
        Ok(Attempt {
            current,
            plan: Some(plan),
            looked,
        })
    }

    /// An attempt that begins at a kept location, or with an ask.
    fn with_kept(
        &self,
        mut current: CurrentCall,
        place: Place,
        kept: Option<&Cached>,
    ) -> Result<Attempt, NoMemory>
        ensures { IfOk result (λ attempt. attempt ≡ with_kept self.now current place (option_copied kept.entry)) }
    {
        let Some(kept) = kept else {
            return self.asking(current, Some(place));
        };
        if !will_do(&current, kept) {
            return self.asking(current, Some(place));
        }
        current.told = kept.told;
        let plan = self.planned_at(&current, &kept.location)?;
        Ok(Attempt {
            current,
            plan,
            looked: Some(place),
        })
    }

    fn attempt_at(&self, current: CurrentCall, index: Option<u64>) -> Result<Attempt, NoMemory>
        ensures { IfOk result (λ attempt. attempt ≡ attempt_at self.now current index) }
    {
        let Some(index) = index else {
            return self.asking(current, None);
        };
        let place = Place {
            file: current.file.0,
            index,
        };
        let kept = self.fresh(place);
        self.with_kept(current, place, kept)
    }

    /// An attempt of a call on a file.
    pub fn planned_attempt(&self, mut current: CurrentCall) -> Result<Attempt, NoMemory>
        ensures { IfOk result (λ attempt. attempt ≡ planned_attempt self.now current) }
    {
        let index = chunk_to_find(&current);
        current.deadline = Moment(sum(self.clock, self.config.attempt_ms)?);
        current.is_nobody_serving = false;
        current.last_chunk = None;
        current.stage = Stage::IsOver;
        self.attempt_at(current, index)
    }
}

fn chunk_of(location: &Location) -> ToldChunk
    ensures { result ≡ chunk_of location.now }
{
    ToldChunk {
        index: location.index,
        handle: location.handle,
        round: location.round,
    }
}

/// Whether a kept location will do: a mutation needs a primary.
fn will_do(current: &CurrentCall, kept: &Cached) -> bool
    ensures { result ≡ will_do current.now kept.now }
{
    !is_mutation(&current.asked) || kept.location.group.is_some()
}
