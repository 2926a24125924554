//! The lines of a script for a running cell.

ghost use Rattle.std.specs.Prelude.{◌≡◌, ◌==◌, ◌<◌, length, IfSome, option_map};
ghost use Rattle.std.specs.List.{position};
ghost use Rattle.std.specs.Str.{byte};
ghost use Rattle.script.specs.Words.{Reads};
ghost use Rattle.script.specs.LiveLines.{calls_in, plain_line, repeat_in, live_line_of, is_for, is_barrier, is_reopen};

use crate::cell_lines::{CellLine, ClientCall, parse as parse_line};
use crate::fault::LineFault;
use crate::lines::MAX_LINE;
use crate::numbers::number;
use std::alloc::Global;

/// What a line asks for.
#[derive(Drop)]
pub enum LiveLine {
    /// An empty line or a comment.
    Nothing,
    /// What follows begins only when all before was answered.
    Barrier,
    /// The same, and before that the cell is parked and goes on.
    Reopen,
    /// A client makes a call so many times in a row.
    Calls { times: u64, asked: ClientCall },
}

/// What a line asks for, without its line feed.
///
/// - `Bad`: the line isn't in the language, or has more than [`MAX_LINE`] bytes.
/// - `NoMemory`: memory for the words, the path or the data was refused.
pub fn parse(alloc: Global, text: &[u8]) -> Result<LiveLine, LineFault>
    ensures { Reads result (live_line_of text.now) }
{
    if text.len() > MAX_LINE {
        return Err(LineFault::Bad);
    }
    if text == b"barrier".as_slice() {
        return Ok(LiveLine::Barrier);
    }
    if text == b"reopen".as_slice() {
        return Ok(LiveLine::Reopen);
    }
    match repeat(text) {
        Some((times, asked)) => calls(alloc, times, asked),
        None => plain(alloc, text),
    }
}

// The number that a line begins with, and what stands behind the space after it.
fn repeat(text: &[u8]) -> Option<(u64, &[u8])>
    ensures { option_map (λ r. (r.0, r.1.now)) result ≡ repeat_in text.now }
{
    let space = first_space(text)?;
    let times = number(&text[..space])?;
    Some((times, &text[space + 1..]))
}

fn first_space(text: &[u8]) -> Option<usize>
    ensures value { result ≡ position (λ c. c == byte " ") text.now }
    ensures within { IfSome result (λ space. space < length text.now) }
{
    text.iter().position(|byte| *byte == b' ')
}

// A line that a number stands before.
fn calls(alloc: Global, times: u64, text: &[u8]) -> Result<LiveLine, LineFault>
    ensures { Reads result (calls_in times text.now) }
{
    match parse_line(alloc, text)? {
        CellLine::Call(asked) => Ok(LiveLine::Calls { times, asked }),
        _ => Err(LineFault::Bad),
    }
}

// A line that no number stands before.
fn plain(alloc: Global, text: &[u8]) -> Result<LiveLine, LineFault>
    ensures { Reads result (plain_line text.now) }
{
    match parse_line(alloc, text)? {
        CellLine::Nothing => Ok(LiveLine::Nothing),
        CellLine::Call(asked) => Ok(LiveLine::Calls { times: 1, asked }),
        _ => Err(LineFault::Bad),
    }
}

impl LiveLine {
    /// Whether it names no client but the first so many.
    pub fn is_for(&self, clients: u64) -> bool
        ensures { result ≡ is_for clients self.now }
    {
        match self {
            LiveLine::Calls { asked, .. } => asked.client.0 <= clients,
            LiveLine::Nothing | LiveLine::Barrier | LiveLine::Reopen => true,
        }
    }

    /// Whether what follows begins only when all before was answered.
    pub fn is_barrier(&self) -> bool
        ensures { result ≡ is_barrier self.now }
    {
        match self {
            LiveLine::Barrier | LiveLine::Reopen => true,
            LiveLine::Nothing | LiveLine::Calls { .. } => false,
        }
    }

    /// Whether the cell is parked here and goes on.
    pub fn is_reopen(&self) -> bool
        ensures { result ≡ is_reopen self.now }
    {
        match self {
            LiveLine::Reopen => true,
            LiveLine::Nothing | LiveLine::Barrier | LiveLine::Calls { .. } => false,
        }
    }
}
