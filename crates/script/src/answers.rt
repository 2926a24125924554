//! The lines that are printed.

ghost use Rattle.std.specs.Prelude.{◌≡◌, ◌<◌, Some, false};
ghost use Rattle.std.specs.Fmt.{digit_glyph};
ghost use Rattle.script.specs.Answers.{hexadecimal_of, rounds_of, names_of, answer_of, answer_line};

use gfs_types::answer::Answer;
use gfs_types::ids::ClientId;
use gfs_types::lists::Text;
use std::{fmt, str};

/// Bytes in lower-case hexadecimal, or `-` where there are none.
#[derive(Clone, Copy)]
pub struct Hexadecimal<'a>(pub &'a [u8]);

impl fmt::Display for Hexadecimal<'_> {
    ghost output = { λ h. Some (hexadecimal_of h.0.now) };

    fn fmt<W: fmt::Write>(&self, f: &mut fmt::Formatter<W>) -> fmt::Result {
        if self.0.is_empty() {
            return f.write_str("-");
        }
        for byte in self.0 {
            let digits = [digit(*byte / 16), digit(*byte % 16)];
            f.write_str(str::from_utf8(&digits).map_err(|_| fmt::Error)?)?;
        }
        Ok(())
    }
}

/// A hexadecimal digit.
fn digit(value: u8) -> u8
    requires { value < 16 }
    ensures { result ≡ digit_glyph false value }
{
    if value < 10 {
        b'0' + value
    } else {
        b'a' + (value - 10)
    }
}

/// Rounds with commas between them, or `-` where there are none.
#[derive(Clone, Copy)]
pub struct Rounds<'a>(pub &'a [u64]);

impl fmt::Display for Rounds<'_> {
    ghost output = { λ r. Some (rounds_of r.0.now) };

    fn fmt<W: fmt::Write>(&self, f: &mut fmt::Formatter<W>) -> fmt::Result {
        let Some((first, rest)) = self.0.split_first() else {
            return f.write_str("-");
        };
        write!(f, "{first}")?;
        for round in rest {
            write!(f, ",{round}")?;
        }
        Ok(())
    }
}

/// How many names there are, and each behind a space.
#[derive(Clone, Copy)]
pub struct Names<'a>(pub &'a [Text]);

impl fmt::Display for Names<'_> {
    ghost output = { λ n. Some (names_of n.0.now) };

    fn fmt<W: fmt::Write>(&self, f: &mut fmt::Formatter<W>) -> fmt::Result {
        let count = self.0.len();
        write!(f, "{count}")?;
        for name in self.0 {
            write!(f, " {}", name.as_str())?;
        }
        Ok(())
    }
}

/// What is printed of an answer behind its client.
#[derive(Clone, Copy)]
pub struct Printed<'a>(pub &'a Answer);

impl fmt::Display for Printed<'_> {
    ghost output = { λ p. Some (answer_of p.0.now) };

    fn fmt<W: fmt::Write>(&self, f: &mut fmt::Formatter<W>) -> fmt::Result {
        match self.0 {
            Answer::Done => write!(f, "done"),
            Answer::Fd(fd) => write!(f, "fd {}", fd.0),
            Answer::Names(names) => write!(f, "names {}", Names(names.as_slice())),
            Answer::Length(count) => write!(f, "length {count}"),
            Answer::At(offset) => write!(f, "at {offset}"),
            Answer::Bytes { bytes, rounds } => {
                let count = bytes.len();
                let bytes = Hexadecimal(bytes.as_slice());
                let rounds = Rounds(rounds.as_slice());
                write!(f, "bytes {count} {bytes} rounds {rounds}")
            }
            Answer::Refused(refusal) => {
                let number = refusal.number();
                let name = refusal.name();
                write!(f, "refused {number} {name}")
            }
        }
    }
}

/// What is printed of a client's answer, without a line feed.
#[derive(Clone, Copy)]
pub struct AnswerLine<'a> {
    pub client: ClientId,
    pub answer: &'a Answer,
}

impl fmt::Display for AnswerLine<'_> {
    ghost output = { λ l. Some (answer_line l.client.0 l.answer.now) };

    fn fmt<W: fmt::Write>(&self, f: &mut fmt::Formatter<W>) -> fmt::Result {
        let client = self.client.0;
        let answer = Printed(self.answer);
        write!(f, "c{client} {answer}")
    }
}
