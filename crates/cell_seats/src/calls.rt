//! The calls of a client, one by one.

ghost use Rattle.std.specs.Prelude.{◌≡◌, Ok, IfOk, IfErr};
ghost use Rattle.gfs_types.specs.declared.answer.Answer.TheVariants as answer;
ghost use Rattle.gfs_types.specs.declared.call.Call.TheVariants as call;
ghost use Rattle.headline.specs.AnswerKinds.{is_done, is_descriptor, is_names, is_length, is_offset, is_bytes};
ghost use Rattle.cell_seats.specs.Seats.{IsAnswered, Fails, IsRefusal, refusal_in};

use crate::seat::Seat;
use crate::stepper::Stepper;
use bytes::Bytes;
use gfs_types::answer::Answer;
use gfs_types::call::Call;
use gfs_types::ids::Fd;
use gfs_types::lists::{NameList, RoundList, Text};
use gfs_types::refusal::Refusal;
use gfs_types::shape::Shape;
use std::sync::Wait;
use std::time::Clock;

impl<N: Stepper + Drop> Seat<N> {
    pub fn mkdir<R: Wait + Clock>(&mut self, rt: &R, path: Text) -> Result<(), Refusal>
        ensures ok { IfOk result (λ _. IsAnswered self.old self.new (call.Mkdir path) answer.Done) }
        ensures err { IfErr result (λ refusal. Fails self.old self.new (call.Mkdir path) refusal) }
    {
        done_in(self.call(rt, Call::Mkdir(path)))
    }

    pub fn rmdir<R: Wait + Clock>(&mut self, rt: &R, path: Text) -> Result<(), Refusal>
        ensures ok { IfOk result (λ _. IsAnswered self.old self.new (call.Rmdir path) answer.Done) }
        ensures err { IfErr result (λ refusal. Fails self.old self.new (call.Rmdir path) refusal) }
    {
        done_in(self.call(rt, Call::Rmdir(path)))
    }

    /// Without a shape the file has the settings'.
    pub fn create<R: Wait + Clock>(
        &mut self,
        rt: &R,
        path: Text,
        shape: Option<Shape>,
    ) -> Result<(), Refusal>
        ensures ok { IfOk result (λ _. IsAnswered self.old self.new (call.Create path shape) answer.Done) }
        ensures err { IfErr result (λ refusal. Fails self.old self.new (call.Create path shape) refusal) }
    {
        done_in(self.call(rt, Call::Create(path, shape)))
    }

    pub fn open<R: Wait + Clock>(&mut self, rt: &R, path: Text) -> Result<Fd, Refusal>
        ensures ok { IfOk result (λ r. IsAnswered self.old self.new (call.Open path) (answer.Fd r)) }
        ensures err { IfErr result (λ refusal. Fails self.old self.new (call.Open path) refusal) }
    {
        descriptor_in(self.call(rt, Call::Open(path)))
    }

    pub fn close<R: Wait + Clock>(&mut self, rt: &R, fd: Fd) -> Result<(), Refusal>
        ensures ok { IfOk result (λ _. IsAnswered self.old self.new (call.Close fd) answer.Done) }
        ensures err { IfErr result (λ refusal. Fails self.old self.new (call.Close fd) refusal) }
    {
        done_in(self.call(rt, Call::Close(fd)))
    }

    pub fn delete<R: Wait + Clock>(&mut self, rt: &R, path: Text) -> Result<(), Refusal>
        ensures ok { IfOk result (λ _. IsAnswered self.old self.new (call.Delete path) answer.Done) }
        ensures err { IfErr result (λ refusal. Fails self.old self.new (call.Delete path) refusal) }
    {
        done_in(self.call(rt, Call::Delete(path)))
    }

    pub fn rename<R: Wait + Clock>(&mut self, rt: &R, from: Text, to: Text) -> Result<(), Refusal>
        ensures ok { IfOk result (λ _. IsAnswered self.old self.new (call.Rename from to) answer.Done) }
        ensures err { IfErr result (λ refusal. Fails self.old self.new (call.Rename from to) refusal) }
    {
        done_in(self.call(rt, Call::Rename(from, to)))
    }

    pub fn list<R: Wait + Clock>(&mut self, rt: &R, path: Text) -> Result<NameList, Refusal>
        ensures ok { IfOk result (λ r. IsAnswered self.old self.new (call.List path) (answer.Names r)) }
        ensures err { IfErr result (λ refusal. Fails self.old self.new (call.List path) refusal) }
    {
        names_in(self.call(rt, Call::List(path)))
    }

    pub fn length<R: Wait + Clock>(&mut self, rt: &R, fd: Fd) -> Result<u64, Refusal>
        ensures ok { IfOk result (λ r. IsAnswered self.old self.new (call.Length fd) (answer.Length r)) }
        ensures err { IfErr result (λ refusal. Fails self.old self.new (call.Length fd) refusal) }
    {
        length_in(self.call(rt, Call::Length(fd)))
    }

    pub fn snapshot<R: Wait + Clock>(&mut self, rt: &R, from: Text, to: Text) -> Result<(), Refusal>
        ensures ok { IfOk result (λ _. IsAnswered self.old self.new (call.Snapshot from to) answer.Done) }
        ensures err { IfErr result (λ refusal. Fails self.old self.new (call.Snapshot from to) refusal) }
    {
        done_in(self.call(rt, Call::Snapshot(from, to)))
    }

    pub fn write<R: Wait + Clock>(
        &mut self,
        rt: &R,
        fd: Fd,
        offset: u64,
        bytes: Bytes,
    ) -> Result<(), Refusal>
        ensures ok { IfOk result (λ _. IsAnswered self.old self.new (call.Write fd offset bytes) answer.Done) }
        ensures err { IfErr result (λ refusal. Fails self.old self.new (call.Write fd offset bytes) refusal) }
    {
        done_in(self.call(rt, Call::Write(fd, offset, bytes)))
    }

    /// Answers the offset at which the record stands.
    pub fn append<R: Wait + Clock>(&mut self, rt: &R, fd: Fd, bytes: Bytes) -> Result<u64, Refusal>
        ensures ok { IfOk result (λ r. IsAnswered self.old self.new (call.Append fd bytes) (answer.At r)) }
        ensures err { IfErr result (λ refusal. Fails self.old self.new (call.Append fd bytes) refusal) }
    {
        offset_in(self.call(rt, Call::Append(fd, bytes)))
    }

    /// Answers the bytes, and the rounds of the chunks that were looked at.
    pub fn read<R: Wait + Clock>(
        &mut self,
        rt: &R,
        fd: Fd,
        offset: u64,
        count: u64,
    ) -> Result<(Bytes, RoundList), Refusal>
        ensures ok { IfOk result (λ r. IsAnswered self.old self.new (call.Read fd offset count) (answer.Bytes r.0 r.1)) }
        ensures err { IfErr result (λ refusal. Fails self.old self.new (call.Read fd offset count) refusal) }
    {
        bytes_in(self.call(rt, Call::Read(fd, offset, count)))
    }
}

// Nothing, if the answer is that it was done.
fn done_in(reply: Result<Answer, Refusal>) -> Result<(), Refusal>
    ensures ok { IfOk result (λ _. reply ≡ Ok answer.Done) }
    ensures err { IfErr result (λ refusal. IsRefusal is_done reply refusal) }
{
    match reply? {
        Answer::Done => Ok(()),
        other => Err(refusal_in(other)),
    }
}

// The descriptor that was answered.
fn descriptor_in(reply: Result<Answer, Refusal>) -> Result<Fd, Refusal>
    ensures ok { IfOk result (λ r. reply ≡ Ok (answer.Fd r)) }
    ensures err { IfErr result (λ refusal. IsRefusal is_descriptor reply refusal) }
{
    match reply? {
        Answer::Fd(fd) => Ok(fd),
        other => Err(refusal_in(other)),
    }
}

// The names that were answered.
fn names_in(reply: Result<Answer, Refusal>) -> Result<NameList, Refusal>
    ensures ok { IfOk result (λ r. reply ≡ Ok (answer.Names r)) }
    ensures err { IfErr result (λ refusal. IsRefusal is_names reply refusal) }
{
    match reply? {
        Answer::Names(names) => Ok(names),
        other => Err(refusal_in(other)),
    }
}

// The length that was answered.
fn length_in(reply: Result<Answer, Refusal>) -> Result<u64, Refusal>
    ensures ok { IfOk result (λ r. reply ≡ Ok (answer.Length r)) }
    ensures err { IfErr result (λ refusal. IsRefusal is_length reply refusal) }
{
    match reply? {
        Answer::Length(count) => Ok(count),
        other => Err(refusal_in(other)),
    }
}

// The offset that was answered.
fn offset_in(reply: Result<Answer, Refusal>) -> Result<u64, Refusal>
    ensures ok { IfOk result (λ r. reply ≡ Ok (answer.At r)) }
    ensures err { IfErr result (λ refusal. IsRefusal is_offset reply refusal) }
{
    match reply? {
        Answer::At(offset) => Ok(offset),
        other => Err(refusal_in(other)),
    }
}

// The bytes that were answered, with their rounds.
fn bytes_in(reply: Result<Answer, Refusal>) -> Result<(Bytes, RoundList), Refusal>
    ensures ok { IfOk result (λ r. reply ≡ Ok (answer.Bytes r.0 r.1)) }
    ensures err { IfErr result (λ refusal. IsRefusal is_bytes reply refusal) }
{
    match reply? {
        Answer::Bytes { bytes, rounds } => Ok((bytes, rounds)),
        other => Err(refusal_in(other)),
    }
}

// The refusal that an answer is. No call has an answer of another kind than it asks for.
fn refusal_in(answer: Answer) -> Refusal
    ensures { result ≡ refusal_in answer }
{
    match answer {
        Answer::Refused(refusal) => refusal,
        _ => Refusal::Unknown,
    }
}
