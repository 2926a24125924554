//! The lines of a script.

ghost use Rattle.std.specs.Prelude.{◌≡◌, IfOk, map};
ghost use Rattle.script.specs.Words.{Reads};
ghost use Rattle.script.specs.Lines.{words_of, write_call, append_call, name_call_of, short_call_of, append_call_of, range_call_of, create_call, create_call_of, long_call_of, call_of, client_line, chunk_of, line_for, line_of};

use crate::fault::LineFault;
use crate::nodes::client;
use crate::numbers::number;
use crate::words::{Data, read_data, read_full_path, read_path};
use bytes::Bytes;
use gfs_types::call::Call;
use gfs_types::ids::{ClientId, Fd};
use gfs_types::lists::Text;
use gfs_types::path::Path;
use gfs_types::shape::Shape;
use std::alloc::{AllocError, Global};

/// The bytes of a line before its line feed, at most.
pub const MAX_LINE: usize = 8_192;

/// A chunk, by the path of its file and its index in it, from 0.
#[derive(Drop)]
pub struct FileChunk {
    pub path: Path,
    pub index: u64,
}

/// What a line asks for.
#[derive(Drop)]
pub enum CallLine {
    /// An empty line or a comment.
    Nothing,
    Call { client: ClientId, call: Call },
    /// To print a chunk's regions.
    Regions(FileChunk),
    /// To print a chunk's replicas.
    Replicas(FileChunk),
}

/// A call on a name.
fn name_call(alloc: Global, name: &[u8], word: &[u8]) -> Result<Call, LineFault>
    ensures { Reads result (name_call_of name.now word.now) }
{
    let path = read_path(alloc, word)?;
    if name == b"mkdir".as_slice() {
        Ok(Call::Mkdir(path))
    } else if name == b"create".as_slice() {
        Ok(Call::Create(path, None))
    } else if name == b"open".as_slice() {
        Ok(Call::Open(path))
    } else if name == b"list".as_slice() {
        Ok(Call::List(path))
    } else {
        Err(LineFault::Bad)
    }
}

/// A call with one word: on an open file, or on a name.
pub fn short_call(alloc: Global, name: &[u8], word: &[u8]) -> Result<Call, LineFault>
    ensures { Reads result (short_call_of name.now word.now) }
{
    if name == b"length".as_slice() {
        Ok(Call::Length(Fd(number(word).ok_or(LineFault::Bad)?)))
    } else {
        name_call(alloc, name, word)
    }
}

/// Data that are too long to be built become an empty write at the greatest offset, which the cell refuses for the same
/// causes in the same order.
fn write_call(fd: Fd, offset: u64, data: Data) -> Call
    ensures { result ≡ write_call fd offset «data» }
{
    match data {
        Data::Bytes(bytes) => Call::Write(fd, offset, bytes),
        Data::TooLong => Call::Write(fd, u64::MAX, Bytes::new()),
    }
}

/// A record that is too long to be built becomes what a write of such data becomes, which the cell refuses for the same
/// causes in the same order.
fn append_call(fd: Fd, data: Data) -> Call
    ensures { result ≡ append_call fd «data» }
{
    match data {
        Data::Bytes(bytes) => Call::Append(fd, bytes),
        Data::TooLong => write_call(fd, 0, Data::TooLong),
    }
}

/// A call that appends to an open file.
pub fn append(alloc: Global, name: &[u8], fd: &[u8], last: &[u8]) -> Result<Call, LineFault>
    ensures { Reads result (append_call_of name.now fd.now last.now) }
{
    if name != b"append".as_slice() {
        return Err(LineFault::Bad);
    }
    let fd = Fd(number(fd).ok_or(LineFault::Bad)?);
    Ok(append_call(fd, read_data(alloc, last)?))
}

/// A call on a range of an open file.
fn range_call(
    alloc: Global,
    name: &[u8],
    fd: &[u8],
    offset: &[u8],
    last: &[u8],
) -> Result<Call, LineFault>
    ensures { Reads result (range_call_of name.now fd.now offset.now last.now) }
{
    let fd = Fd(number(fd).ok_or(LineFault::Bad)?);
    let offset = number(offset).ok_or(LineFault::Bad)?;
    if name == b"write".as_slice() {
        Ok(write_call(fd, offset, read_data(alloc, last)?))
    } else if name == b"read".as_slice() {
        Ok(Call::Read(fd, offset, number(last).ok_or(LineFault::Bad)?))
    } else {
        Err(LineFault::Bad)
    }
}

/// Numbers that are too great for a shape become the greatest that it may have, which fits no settings.
fn create_call(path: Text, chunk: u64, goal: u64) -> Call
    ensures { result ≡ create_call path chunk goal }
{
    let shape = Shape {
        chunk: chunk.min(u64::from(u32::MAX)) as u32,
        goal: goal.min(u64::from(u8::MAX)) as u8,
    };
    Call::Create(path, Some(shape))
}

/// A file with a shape of its own.
fn create(alloc: Global, path: &[u8], chunk: &[u8], goal: &[u8]) -> Result<Call, LineFault>
    ensures { Reads result (create_call_of path.now chunk.now goal.now) }
{
    let path = read_path(alloc, path)?;
    let chunk = number(chunk).ok_or(LineFault::Bad)?;
    let goal = number(goal).ok_or(LineFault::Bad)?;
    Ok(create_call(path, chunk, goal))
}

/// A call with three words: on a range of an open file, or one that makes a file with a shape of its own.
pub fn long_call(
    alloc: Global,
    name: &[u8],
    first: &[u8],
    second: &[u8],
    last: &[u8],
) -> Result<Call, LineFault>
    ensures { Reads result (long_call_of name.now first.now second.now last.now) }
{
    if name == b"create".as_slice() {
        create(alloc, first, second, last)
    } else {
        range_call(alloc, name, first, second, last)
    }
}

fn call(alloc: Global, words: &[&[u8]]) -> Result<Call, LineFault>
    ensures { Reads result (call_of (map (λ w. w.now) words.now)) }
{
    match words {
        [name, word] => short_call(alloc, name, word),
        [name, fd, last] => append(alloc, name, fd, last),
        [name, first, second, last] => long_call(alloc, name, first, second, last),
        _ => Err(LineFault::Bad),
    }
}

/// A client's call.
fn client_line(alloc: Global, name: &[u8], words: &[&[u8]]) -> Result<CallLine, LineFault>
    ensures { Reads result (client_line name.now (map (λ w. w.now) words.now)) }
{
    let client = client(name).ok_or(LineFault::Bad)?;
    let call = call(alloc, words)?;
    Ok(CallLine::Call { client, call })
}

/// A path and an index.
pub fn file_chunk(alloc: Global, words: &[&[u8]]) -> Result<FileChunk, LineFault>
    ensures { Reads result (chunk_of (map (λ w. w.now) words.now)) }
{
    match words {
        [path, index] => {
            let path = read_full_path(alloc, path)?;
            let index = number(index).ok_or(LineFault::Bad)?;
            Ok(FileChunk { path, index })
        }
        _ => Err(LineFault::Bad),
    }
}

fn line_for(alloc: Global, words: &[&[u8]]) -> Result<CallLine, LineFault>
    ensures { Reads result (line_for (map (λ w. w.now) words.now)) }
{
    let Some((first, rest)) = words.split_first() else {
        return Err(LineFault::Bad);
    };
    if *first == b"regions".as_slice() {
        Ok(CallLine::Regions(file_chunk(alloc, rest)?))
    } else if *first == b"replicas".as_slice() {
        Ok(CallLine::Replicas(file_chunk(alloc, rest)?))
    } else {
        client_line(alloc, first, rest)
    }
}

/// The words of a line, which one space separates.
pub fn split_words(alloc: Global, line: &[u8]) -> Result<Vec<&[u8]>, AllocError>
    ensures { IfOk result (λ v. map (λ w. w.now) v.items ≡ words_of line.now) }
{
    line.split(|byte| *byte == b' ').collect(alloc)
}

/// What a line asks for, without its line feed.
///
/// - `Bad`: the line isn't in the language, or has more than [`MAX_LINE`] bytes.
/// - `NoMemory`: memory for the words, the path or the data was refused.
pub fn parse(alloc: Global, line: &[u8]) -> Result<CallLine, LineFault>
    ensures { Reads result (line_of line.now) }
{
    if line.len() > MAX_LINE {
        return Err(LineFault::Bad);
    }
    if line.is_empty() || line[0] == b'#' {
        return Ok(CallLine::Nothing);
    }
    let words = split_words(alloc, line)?;
    line_for(alloc, words.as_slice())
}
