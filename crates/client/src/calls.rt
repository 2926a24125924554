//! A call of the client. What is too long, an empty write or read, and what has no open descriptor ask nobody.

ghost use Rattle.std.specs.Prelude.{◌≡◌, ◌/◌, suc, IfOk, OnOk, OnErr, [], None};
ghost use Rattle.gfs_types.specs.declared.answer.Answer.TheVariants as answer;
ghost use Rattle.protocol.specs.Client.{client_begins, answers};
ghost use Rattle.protocol.specs.ClientFiles.{last_append, with_last_append};
ghost use Rattle.protocol.specs.ClientAttempts.{attempts};
ghost use Rattle.protocol.specs.ClientStep.{new_call, calls_names, calls_file, calls_on, calls};
ghost use Rattle.client.specs.Doing.{doing};
ghost use Rattle.client.specs.Calls.{closes, appends};

use crate::client::Client;
use bytes::Bytes;
use client_calls::asked::{fd_of, is_name_call, is_range_too_long};
use client_calls::effects::ClientEffects;
use client_calls::sent::Sent;
use client_calls::sums::sum;
use client_state::call::{CurrentCall, Stage};
use client_state::gathered::Gathered;
use gfs_types::answer::Answer;
use gfs_types::call::Call;
use gfs_types::ids::{FileId, Moment};
use gfs_types::lists::{RoundList, Sequence};
use gfs_types::no_memory::NoMemory;
use gfs_types::refusal::Refusal;

impl Client {
    /// A call before its first attempt.
    fn new_call(
        &self,
        number: u64,
        call: Call,
        file: u64,
        index: u64,
        last_chunk: Option<u64>,
    ) -> CurrentCall
        ensures { result ≡ new_call self.now.config.attempts number call file index last_chunk }
    {
        CurrentCall {
            number,
            asked: call,
            file: FileId(file),
            index,
            last_chunk,
            left: self.config.attempts,
            deadline: Moment(0),
            told: Moment(0),
            stage: Stage::IsOver,
            lost_lease: false,
            saw_no_holder: false,
            is_nobody_serving: false,
            live: Sequence::empty(self.alloc),
            bytes: Gathered::new(self.alloc),
            rounds: RoundList::empty(self.alloc),
        }
    }

    /// A call begins. At an error nothing has changed.
    pub(crate) fn calls(&mut self, call: Call) -> Result<ClientEffects, NoMemory>
        ensures ok { IfOk result (λ e. calls (client_begins self.old) call ≡ doing self.new e) }
        ensures err { OnErr result (self.new ≡ self.old) }
    {
        if is_name_call(&call) {
            return self.calls_names(call);
        }
        let file = self.descriptors.get(fd_of(&call)).copied();
        self.calls_on(call, file)
    }

    fn calls_on(&mut self, call: Call, file: Option<u64>) -> Result<ClientEffects, NoMemory>
        ensures ok { IfOk result (λ e. calls_on (client_begins self.old) call file ≡ doing self.new e) }
        ensures err { OnErr result (self.new ≡ self.old) }
    {
        match file {
            None => Ok(self.answers(Answer::Refused(Refusal::BadFd))),
            Some(file) => self.calls_file(call, file),
        }
    }

    fn calls_names(&mut self, call: Call) -> Result<ClientEffects, NoMemory>
        ensures ok { IfOk result (λ e. calls_names (client_begins self.old) call ≡ doing self.new e) }
        ensures err { OnErr result (self.new ≡ self.old) }
    {
        let number = sum(self.call_count, 1)?;
        let mut current = self.new_call(number, call, 0, 0, None);
        current.deadline = Moment(sum(self.clock, self.config.attempt_ms)?);
        let plan = self.name_planned(&current)?;
        self.call_count = number;
        Ok(self.commits(current, plan))
    }

    /// A call on an open descriptor.
    fn calls_file(&mut self, call: Call, file: u64) -> Result<ClientEffects, NoMemory>
        ensures ok { IfOk result (λ e. calls_file (client_begins self.old) call file ≡ doing self.new e) }
        ensures err { OnErr result (self.new ≡ self.old) }
    {
        let size = self.chunk_size(file);
        match &call {
            Call::Close(fd) => {
                let fd = fd.0;
                self.closes(fd, file)
            }
            Call::Length(_) => self.begins_call(call, file, 0),
            Call::Write(_, offset, bytes) => {
                let offset = *offset;
                let count = bytes.len() as u64;
                if is_range_too_long(offset, count) {
                    return Ok(self.answers(Answer::Refused(Refusal::TooLong)));
                }
                if count == 0 {
                    return Ok(self.answers(Answer::Done));
                }
                self.begins_call(call, file, offset / size)
            }
            Call::Append(_, bytes) => {
                if size / 4 < bytes.len() as u64 {
                    return Ok(self.answers(Answer::Refused(Refusal::TooLong)));
                }
                self.appends(call, file)
            }
            Call::Read(_, offset, count) => {
                let offset = *offset;
                let count = *count;
                if is_range_too_long(offset, count) {
                    return Ok(self.answers(Answer::Refused(Refusal::TooLong)));
                }
                if count == 0 {
                    return Ok(self.answers_nothing());
                }
                self.begins_call(call, file, offset / size)
            }
            _ => Ok(ClientEffects {
                sent: Sent::none(self.alloc),
                answer: None,
            }),
        }
    }

    /// A read of no bytes is answered.
    fn answers_nothing(&mut self) -> ClientEffects
        ensures { answers (client_begins self.old) (answer.Bytes [] []) ≡ doing self.new result }
    {
        self.answers(Answer::Bytes {
            bytes: Bytes::new(),
            rounds: RoundList::empty(self.alloc),
        })
    }

    /// The call's first attempt begins.
    fn begins_call(&mut self, call: Call, file: u64, index: u64) -> Result<ClientEffects, NoMemory>
        ensures ok { IfOk result (λ e. attempts (client_begins self.old) (new_call self.old.config.attempts 0 call file index None) ≡ doing self.new e) }
        ensures err { OnErr result (self.new ≡ self.old) }
    {
        let current = self.new_call(0, call, file, index, None);
        self.attempts(current)
    }

    /// A descriptor is closed, and with its last one the file.
    fn closes(&mut self, fd: u64, file: u64) -> Result<ClientEffects, NoMemory>
        ensures ok { IfOk result (λ e. closes (client_begins self.old) fd file ≡ doing self.new e) }
        ensures err { OnErr result (self.new ≡ self.old) }
    {
        self.files.close(file)?;
        drop(self.descriptors.remove(fd));
        Ok(self.answers(Answer::Done))
    }

    /// The index at which the last append to a file succeeded.
    fn last_append(&self, file: u64) -> Option<u64>
        ensures { result ≡ last_append self.now.files file }
    {
        self.files.last_append(file)
    }

    fn forgets_last_append(&mut self, file: u64) -> Result<(), NoMemory>
        ensures ok { OnOk result (self.new ≡ record self.old { files = with_last_append self.old.files file None }) }
        ensures err { OnErr result (self.new ≡ self.old) }
    {
        self.files.set_last_append(file, None)
    }

    /// An append looks first where the last one to its file succeeded.
    fn appends(&mut self, call: Call, file: u64) -> Result<ClientEffects, NoMemory>
        ensures ok { IfOk result (λ e. appends (client_begins self.old) call file ≡ doing self.new e) }
        ensures err { OnErr result (self.new ≡ self.old) }
    {
        let last = self.last_append(file);
        let current = self.new_call(0, call, file, 0, last);
        let attempt = self.planned_attempt(current)?;
        self.forgets_last_append(file)?;
        Ok(self.begins(attempt))
    }
}
