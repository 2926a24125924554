//! How a call goes on: its attempts begin and end, and it is answered (sections 2.7.1 and 3.1).

ghost use Rattle.std.specs.Prelude.{◌≡◌, IfOk, OnErr};
ghost use Rattle.protocol.specs.Client.{client_begins, with_current, answers, committed};
ghost use Rattle.protocol.specs.ClientAttempts.{completes, last_refusal, gives_up, ended, ends_refused, asks, asks_anew, reads_next, goes_on_at, attempts, attempts_names};
ghost use Rattle.client.specs.Doing.{doing};
ghost use Rattle.client.specs.Attempts.{follows, begun};

use crate::client::Client;
use client_calls::asked::is_mutation;
use client_calls::attempt::Attempt;
use client_calls::effects::ClientEffects;
use client_calls::live::is_any_live;
use client_calls::plan::CallPlan;
use client_calls::sent::Sent;
use client_calls::sums::sum;
use client_state::call::{CurrentCall, Stage, ToldChunk};
use gfs_types::answer::Answer;
use gfs_types::ids::Moment;
use gfs_types::no_memory::NoMemory;
use gfs_types::refusal::Refusal;
use messages::message::{Holder, Location};

impl Client {
    /// The call goes on, with nothing sent.
    pub fn waits(&mut self, current: CurrentCall) -> ClientEffects
        ensures { with_current (client_begins self.old) current ≡ doing self.new result }
    {
        self.current = Some(current);
        ClientEffects {
            sent: Sent::none(self.alloc),
            answer: None,
        }
    }

    /// The call is answered, and over.
    pub fn answers(&mut self, answer: Answer) -> ClientEffects
        ensures { answers (client_begins self.old) answer ≡ doing self.new result }
    {
        self.current = None;
        ClientEffects {
            sent: Sent::none(self.alloc),
            answer: Some(answer),
        }
    }

    /// The attempt goes on as it was planned.
    pub fn commits(&mut self, mut current: CurrentCall, plan: CallPlan) -> ClientEffects
        ensures { committed (client_begins self.old) current plan ≡ doing self.new result }
    {
        let CallPlan {
            stage,
            sent,
            number,
        } = plan;
        current.stage = stage;
        self.number = number;
        self.current = Some(current);
        ClientEffects { sent, answer: None }
    }

    /// What completed the call is its answer, once none of a mutation's attempts is live.
    pub fn completes(&mut self, mut current: CurrentCall, answer: Answer) -> ClientEffects
        ensures { completes (client_begins self.old) current answer ≡ doing self.new result }
    {
        if is_mutation(&current.asked) && is_any_live(current.live.as_slice(), self.clock) {
            current.stage = Stage::HasAnswer(answer);
            return self.waits(current);
        }
        self.answers(answer)
    }

    /// The call is refused after its last attempt.
    pub fn gives_up(&mut self, current: CurrentCall) -> ClientEffects
        ensures { gives_up (client_begins self.old) current ≡ doing self.new result }
    {
        let refusal = last_refusal(&current);
        self.completes(current, Answer::Refused(refusal))
    }

    /// The attempt ended by a refusal: the next one begins at the next tick, if there is one.
    pub fn ends_refused(&mut self, current: CurrentCall) -> ClientEffects
        ensures { ends_refused (client_begins self.old) current ≡ doing self.new result }
    {
        if current.left <= 1 {
            return self.gives_up(ended(current));
        }
        self.waits(ended(current))
    }

    /// The master is asked.
    pub fn asks(&mut self, mut current: CurrentCall) -> Result<ClientEffects, NoMemory>
        ensures { IfOk result (λ e. asks (client_begins self.old) current ≡ doing self.new e) }
    {
        let plan = self.ask_planned(&current)?;
        current.lost_lease = false;
        Ok(self.commits(current, plan))
    }

    /// The location by which the attempt goes is too old: the master is asked again at the next tick.
    pub fn asks_anew(&mut self, mut current: CurrentCall) -> ClientEffects
        ensures { asks_anew (client_begins self.old) current ≡ doing self.new result }
    {
        current.stage = Stage::MustAskAgain;
        self.waits(current)
    }

    /// The attempt goes on as it was planned; a read that nobody is left to serve ends.
    pub fn follows(&mut self, mut current: CurrentCall, plan: Option<CallPlan>) -> ClientEffects
        ensures { follows (client_begins self.old) current plan ≡ doing self.new result }
    {
        match plan {
            None => {
                current.is_nobody_serving = true;
                self.ends_refused(current)
            }
            Some(plan) => self.commits(current, plan),
        }
    }

    /// The told servers are asked in turn, until one answers.
    #[tactic(auto, using(crate::proofs::Attempts::next_reads))]
    pub fn reads_next(
        &mut self,
        current: CurrentCall,
        chunk: ToldChunk,
        holders: &[Holder],
    ) -> Result<ClientEffects, NoMemory>
        ensures { IfOk result (λ e. reads_next (client_begins self.old) current chunk holders.now ≡ doing self.new e) }
    {
        let plan = self.next_read(&current, chunk, holders)?;
        Ok(self.follows(current, plan))
    }

    /// A location is there.
    pub fn goes_on_at(
        &mut self,
        current: CurrentCall,
        location: &Location,
    ) -> Result<ClientEffects, NoMemory>
        ensures { IfOk result (λ e. goes_on_at (client_begins self.old) current location.now ≡ doing self.new e) }
    {
        let plan = self.planned_at(&current, location)?;
        Ok(self.follows(current, plan))
    }

    /// An attempt begins as it was planned. Takes no memory.
    pub fn begins(&mut self, attempt: Attempt) -> ClientEffects
        ensures { begun (client_begins self.old) attempt ≡ doing self.new result }
    {
        let Attempt {
            current,
            plan,
            looked,
        } = attempt;
        match looked {
            None => self.follows(current, plan),
            Some(place) => {
                self.look(place);
                self.follows(current, plan)
            }
        }
    }

    /// An attempt of a call on a file begins. At an error nothing has changed.
    pub fn attempts(&mut self, current: CurrentCall) -> Result<ClientEffects, NoMemory>
        ensures ok { IfOk result (λ e. attempts (client_begins self.old) current ≡ doing self.new e) }
        ensures err { OnErr result (self.new ≡ self.old) }
    {
        let attempt = self.planned_attempt(current)?;
        Ok(self.begins(attempt))
    }

    /// An attempt of a name call: the same call again, under the same number.
    pub fn attempts_names(&mut self, mut current: CurrentCall) -> Result<ClientEffects, NoMemory>
        ensures { IfOk result (λ e. attempts_names (client_begins self.old) current ≡ doing self.new e) }
    {
        current.deadline = Moment(sum(self.clock, self.config.attempt_ms)?);
        let plan = self.name_planned(&current)?;
        Ok(self.commits(current, plan))
    }
}

/// The refusal after the last attempt.
fn last_refusal(current: &CurrentCall) -> Refusal
    ensures { result ≡ last_refusal current.now }
{
    if is_mutation(&current.asked) {
        if current.saw_no_holder {
            Refusal::NoReplica
        } else {
            Refusal::Failed
        }
    } else if current.is_nobody_serving {
        Refusal::NoReplica
    } else {
        Refusal::Unknown
    }
}

/// The attempt is over, and counted.
pub fn ended(mut current: CurrentCall) -> CurrentCall
    ensures { result ≡ ended current }
{
    current.stage = Stage::IsOver;
    current.left = current.left.saturating_sub(1);
    current
}
