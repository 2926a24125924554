//! The lines of a history: what a client called, and what it was answered.

ghost use Rattle.std.specs.Prelude.{Some};
ghost use Rattle.script.specs.CallLines.{data_of, words_of, asked_line, answered_line};

use crate::answers::{Hexadecimal, Printed};
use gfs_types::answer::Answer;
use gfs_types::call::Call;
use gfs_types::ids::{ClientId, Fd, Moment};
use std::fmt;

/// Data as `0x` and two hexadecimal digits for each byte.
#[derive(Clone, Copy)]
pub struct DataWord<'a>(pub &'a [u8]);

impl fmt::Display for DataWord<'_> {
    ghost output = { λ d. Some (data_of d.0.now) };

    #[tactic(auto, using(crate::proofs::DataWords::digits_of))]
    fn fmt<W: fmt::Write>(&self, f: &mut fmt::Formatter<W>) -> fmt::Result {
        if self.0.is_empty() {
            return f.write_str("0x");
        }
        let digits = Hexadecimal(self.0);
        write!(f, "0x{digits}")
    }
}

/// A call, as a line that is served has it behind its client.
#[derive(Clone, Copy)]
pub struct CallWords<'a>(pub &'a Call);

impl fmt::Display for CallWords<'_> {
    ghost output = { λ c. Some (words_of c.0.now) };

    fn fmt<W: fmt::Write>(&self, f: &mut fmt::Formatter<W>) -> fmt::Result {
        match self.0 {
            Call::Mkdir(path) => write!(f, "mkdir {path}"),
            Call::Rmdir(path) => write!(f, "rmdir {path}"),
            Call::Create(path, None) => write!(f, "create {path}"),
            Call::Create(path, Some(shape)) => {
                let chunk = shape.chunk;
                let goal = shape.goal;
                write!(f, "create {path} {chunk} {goal}")
            }
            Call::Open(path) => write!(f, "open {path}"),
            Call::Close(Fd(fd)) => write!(f, "close {fd}"),
            Call::Delete(path) => write!(f, "delete {path}"),
            Call::Rename(from, to) => write!(f, "rename {from} {to}"),
            Call::List(path) => write!(f, "list {path}"),
            Call::Length(Fd(fd)) => write!(f, "length {fd}"),
            Call::Snapshot(from, to) => write!(f, "snapshot {from} {to}"),
            Call::Write(Fd(fd), offset, bytes) => {
                let data = DataWord(bytes.as_slice());
                write!(f, "write {fd} {offset} {data}")
            }
            Call::Append(Fd(fd), bytes) => {
                let data = DataWord(bytes.as_slice());
                write!(f, "append {fd} {data}")
            }
            Call::Read(Fd(fd), offset, count) => write!(f, "read {fd} {offset} {count}"),
        }
    }
}

/// A client's call at a moment, without a line feed.
#[derive(Clone, Copy)]
pub struct AskedLine<'a> {
    pub moment: Moment,
    pub client: ClientId,
    pub call: &'a Call,
}

impl fmt::Display for AskedLine<'_> {
    ghost output = { λ l. Some (asked_line l.moment.0 l.client.0 l.call.now) };

    fn fmt<W: fmt::Write>(&self, f: &mut fmt::Formatter<W>) -> fmt::Result {
        let moment = self.moment.0;
        let client = self.client.0;
        let call = CallWords(self.call);
        write!(f, "{moment} c{client} {call}")
    }
}

/// What a client was answered at a moment, without a line feed.
#[derive(Clone, Copy)]
pub struct AnsweredLine<'a> {
    pub moment: Moment,
    pub client: ClientId,
    pub answer: &'a Answer,
}

impl fmt::Display for AnsweredLine<'_> {
    ghost output = { λ l. Some (answered_line l.moment.0 l.client.0 l.answer.now) };

    fn fmt<W: fmt::Write>(&self, f: &mut fmt::Formatter<W>) -> fmt::Result {
        let moment = self.moment.0;
        let client = self.client.0;
        let answer = Printed(self.answer);
        write!(f, "{moment} c{client} -> {answer}")
    }
}
