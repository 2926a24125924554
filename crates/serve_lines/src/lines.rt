//! What a line that is served asks for.

ghost use Rattle.std.specs.Prelude.{◌≡◌, ◌≤◌, IsTrue, length, map};
ghost use Rattle.script.specs.Words.{Reads};
ghost use Rattle.serve_lines.specs.Lines.{bytes_of, append_line, write_line, net_line, plain_line, served_of, has_digits, short_line, long_line, line_for, served_line_of};

use bytes::Bytes;
use gfs_types::call::Call;
use gfs_types::ids::{Fd, Node};
use hex::FromHexError;
use script::cell_lines::{CellLine, ClientCall, parse as parse_line};
use script::fault::LineFault;
use script::lines::{MAX_LINE, split_words};
use script::nodes::client;
use script::numbers::number;
use std::alloc::Global;

/// What a line asks for.
#[derive(Drop)]
pub enum ServedLine {
    /// An empty line or a comment.
    Nothing,
    /// To print for how many steps more there is room in the journal.
    Room,
    /// That a node begins again.
    Restart(Node),
    /// That the network loses, repeats and holds up each so many-th message from now on.
    Net(u64, u64, u64),
    Call(ClientCall),
}

/// What a line asks for, without its line feed.
///
/// - `Bad`: the line isn't in the language, or has more than [`MAX_LINE`] bytes.
/// - `NoMemory`: memory for the words, the path or the data was refused.
pub fn parse(alloc: Global, text: &[u8]) -> Result<ServedLine, LineFault>
    ensures { Reads result (served_line_of text.now) }
{
    if text.len() > MAX_LINE {
        return Err(LineFault::Bad);
    }
    if text == b"room".as_slice() {
        return Ok(ServedLine::Room);
    }
    if text.is_empty() || text[0] == b'#' {
        return Ok(ServedLine::Nothing);
    }
    let words = split_words(alloc, text)?;
    line_for(alloc, text, words.as_slice())
}

// A line of these words.
fn line_for(alloc: Global, text: &[u8], words: &[&[u8]]) -> Result<ServedLine, LineFault>
    ensures { Reads result (line_for text.now (map (λ w. w.now) words.now)) }
{
    match words {
        [client, name, fd, last] => short_line(alloc, text, client, name, fd, last),
        [client, name, fd, offset, last] => {
            long_line(alloc, text, client, name, fd, offset, last)
        }
        _ => plain_line(alloc, text),
    }
}

// A line of four words, which may be an append whose data are digits, or speak of the network.
fn short_line(
    alloc: Global,
    text: &[u8],
    client: &[u8],
    name: &[u8],
    fd: &[u8],
    last: &[u8],
) -> Result<ServedLine, LineFault>
    ensures { Reads result (short_line text.now client.now name.now fd.now last.now) }
{
    if name == b"append".as_slice() && has_digits(last) {
        append_line(alloc, client, fd, &last[2..])
    } else if client == b"net".as_slice() {
        net_line(name, fd, last)
    } else {
        plain_line(alloc, text)
    }
}

// A line of five words, which may be a write whose data are digits.
fn long_line(
    alloc: Global,
    text: &[u8],
    client: &[u8],
    name: &[u8],
    fd: &[u8],
    offset: &[u8],
    last: &[u8],
) -> Result<ServedLine, LineFault>
    ensures { Reads result (long_line text.now client.now name.now fd.now offset.now last.now) }
{
    if name == b"write".as_slice() && has_digits(last) {
        write_line(alloc, client, fd, offset, &last[2..])
    } else {
        plain_line(alloc, text)
    }
}

// Whether a word of data has digits behind `0x`.
fn has_digits(word: &[u8]) -> bool
    ensures value { result ≡ has_digits word.now }
    ensures long { IsTrue result → 2 ≤ length word.now }
{
    word.len() >= 2 && word[0] == b'0' && word[1] == b'x'
}

// A client's append of the bytes that these digits stand for.
fn append_line(
    alloc: Global,
    name: &[u8],
    fd: &[u8],
    digits: &[u8],
) -> Result<ServedLine, LineFault>
    ensures { Reads result (append_line name.now fd.now digits.now) }
{
    let client = client(name).ok_or(LineFault::Bad)?;
    let fd = Fd(number(fd).ok_or(LineFault::Bad)?);
    let call = Call::Append(fd, bytes_of(alloc, digits)?);
    Ok(ServedLine::Call(ClientCall { client, call }))
}

// A client's write of the bytes that these digits stand for.
fn write_line(
    alloc: Global,
    name: &[u8],
    fd: &[u8],
    offset: &[u8],
    digits: &[u8],
) -> Result<ServedLine, LineFault>
    ensures { Reads result (write_line name.now fd.now offset.now digits.now) }
{
    let client = client(name).ok_or(LineFault::Bad)?;
    let fd = Fd(number(fd).ok_or(LineFault::Bad)?);
    let offset = number(offset).ok_or(LineFault::Bad)?;
    let call = Call::Write(fd, offset, bytes_of(alloc, digits)?);
    Ok(ServedLine::Call(ClientCall { client, call }))
}

// From now on the network does this to each so many-th message.
fn net_line(lose: &[u8], repeat: &[u8], hold: &[u8]) -> Result<ServedLine, LineFault>
    ensures { Reads result (net_line lose.now repeat.now hold.now) }
{
    let lose = number(lose).ok_or(LineFault::Bad)?;
    let repeat = number(repeat).ok_or(LineFault::Bad)?;
    let hold = number(hold).ok_or(LineFault::Bad)?;
    Ok(ServedLine::Net(lose, repeat, hold))
}

// The bytes that hexadecimal digits stand for, two digits for each.
fn bytes_of(alloc: Global, digits: &[u8]) -> Result<Bytes, LineFault>
    ensures { Reads result (bytes_of digits.now) }
{
    match hex::decode(alloc, digits) {
        Ok(bytes) => Ok(Bytes::from_vec(bytes)?),
        Err(FromHexError::OutOfMemory) => Err(LineFault::NoMemory),
        Err(_) => Err(LineFault::Bad),
    }
}

// A line whose data, if it has some, stand as they are.
fn plain_line(alloc: Global, text: &[u8]) -> Result<ServedLine, LineFault>
    ensures { Reads result (plain_line text.now) }
{
    match parse_line(alloc, text)? {
        CellLine::Nothing => Ok(ServedLine::Nothing),
        CellLine::Restart(node) => Ok(ServedLine::Restart(node)),
        CellLine::Call(asked) => Ok(ServedLine::Call(asked)),
        _ => Err(LineFault::Bad),
    }
}
