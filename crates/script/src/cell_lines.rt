//! The lines of a script.

ghost use Rattle.std.specs.Prelude.{◌≡◌, map};
ghost use Rattle.script.specs.Words.{Reads};
ghost use Rattle.script.specs.CellLines.{alone, byte_of, call_of, chunk_line, client_call_of, fuse_of, line_for, line_of, matter_of, moments_of, node_in, node_line, pair_call_of, rot_of, started_call_of, torn_of, word_call_of};

use crate::cell_nodes::{node, server};
use crate::fault::LineFault;
use crate::kinds::{Kind, kind_named};
use crate::lines::{FileChunk, MAX_LINE, append, file_chunk, long_call, short_call, split_words};
use crate::nodes::client;
use crate::numbers::number;
use crate::words::read_path;
use gfs_types::call::Call;
use gfs_types::ids::{ClientId, Fd, Node, ServerId};
use gfs_types::torn::Torn;
use std::alloc::Global;

/// Messages of one kind to one node.
#[derive(Clone, Copy, Debug, PartialEq, Eq)]
pub struct Matter {
    pub kind: Kind,
    pub receiver: Node,
}

/// A client's call.
#[derive(Drop)]
pub struct ClientCall {
    pub client: ClientId,
    pub call: Call,
}

/// What a line asks for.
#[derive(Drop)]
pub enum CellLine {
    /// An empty line or a comment.
    Nothing,
    /// A call, up to its answer.
    Call(ClientCall),
    /// A call that goes on behind its line.
    Start(ClientCall),
    /// To go on until no call is open.
    Finish,
    /// So many milliseconds go by.
    Wait(u64),
    /// The next message of this matter that is sent is put aside.
    Hold(Matter),
    /// What was put aside is delivered.
    Free,
    /// The next message of this matter is delivered twice.
    Twice(Matter),
    /// What a node sends or is sent, and isn't put aside, is lost, and it isn't ticked.
    Cut(Node),
    /// A cut ends.
    Join(Node),
    Restart(Node),
    /// The master and each server begin again, and all messages are dropped.
    Rebase,
    /// The node's disk passes so many calls, and then fails.
    Fuse {
        node: Node,
        calls: u64,
        torn: Torn,
    },
    /// A byte of a chunk's replica changes on the disk.
    Rot {
        server: ServerId,
        chunk: FileChunk,
        place: u64,
        byte: u8,
    },
    /// To print a chunk's regions.
    Regions(FileChunk),
    /// To print a chunk's replicas.
    Replicas(FileChunk),
}

/// A call with one word: on an open file, or on a name.
fn word_call(alloc: Global, name: &[u8], word: &[u8]) -> Result<Call, LineFault>
    ensures { Reads result (word_call_of name.now word.now) }
{
    if name == b"rmdir".as_slice() {
        Ok(Call::Rmdir(read_path(alloc, word)?))
    } else if name == b"delete".as_slice() {
        Ok(Call::Delete(read_path(alloc, word)?))
    } else if name == b"close".as_slice() {
        Ok(Call::Close(Fd(number(word).ok_or(LineFault::Bad)?)))
    } else {
        short_call(alloc, name, word)
    }
}

/// A call on two names, or one that appends to an open file.
fn pair_call(alloc: Global, name: &[u8], first: &[u8], last: &[u8]) -> Result<Call, LineFault>
    ensures { Reads result (pair_call_of name.now first.now last.now) }
{
    if name == b"rename".as_slice() {
        let from = read_path(alloc, first)?;
        Ok(Call::Rename(from, read_path(alloc, last)?))
    } else if name == b"snapshot".as_slice() {
        let from = read_path(alloc, first)?;
        Ok(Call::Snapshot(from, read_path(alloc, last)?))
    } else {
        append(alloc, name, first, last)
    }
}

fn call(alloc: Global, words: &[&[u8]]) -> Result<Call, LineFault>
    ensures { Reads result (call_of (map (λ w. w.now) words.now)) }
{
    match words {
        [name, word] => word_call(alloc, name, word),
        [name, first, last] => pair_call(alloc, name, first, last),
        [name, first, second, last] => long_call(alloc, name, first, second, last),
        _ => Err(LineFault::Bad),
    }
}

/// A call by the client of this name.
fn client_call(alloc: Global, name: &[u8], words: &[&[u8]]) -> Result<ClientCall, LineFault>
    ensures { Reads result (client_call_of name.now (map (λ w. w.now) words.now)) }
{
    let client = client(name).ok_or(LineFault::Bad)?;
    let call = call(alloc, words)?;
    Ok(ClientCall { client, call })
}

/// A client and its call.
fn started_call(alloc: Global, words: &[&[u8]]) -> Result<ClientCall, LineFault>
    ensures { Reads result (started_call_of (map (λ w. w.now) words.now)) }
{
    match words.split_first() {
        Some((name, words)) => client_call(alloc, name, words),
        None => Err(LineFault::Bad),
    }
}

/// A line with no further word.
fn alone(words: &[&[u8]], line: CellLine) -> Result<CellLine, LineFault>
    ensures { Reads result (alone (map (λ w. w.now) words.now) «line») }
{
    if words.is_empty() {
        Ok(line)
    } else {
        Err(LineFault::Bad)
    }
}

fn moments(words: &[&[u8]]) -> Result<u64, LineFault>
    ensures { Reads result (moments_of (map (λ w. w.now) words.now)) }
{
    match words {
        [word] => number(word).ok_or(LineFault::Bad),
        _ => Err(LineFault::Bad),
    }
}

/// One node.
fn one_node(words: &[&[u8]]) -> Result<Node, LineFault>
    ensures { Reads result (node_in (map (λ w. w.now) words.now)) }
{
    match words {
        [word] => node(word).ok_or(LineFault::Bad),
        _ => Err(LineFault::Bad),
    }
}

/// A kind of messages and their receiver.
fn read_matter(words: &[&[u8]]) -> Result<Matter, LineFault>
    ensures { Reads result (matter_of (map (λ w. w.now) words.now)) }
{
    match words {
        [name, receiver] => {
            let kind = kind_named(name).ok_or(LineFault::Bad)?;
            let receiver = node(receiver).ok_or(LineFault::Bad)?;
            Ok(Matter { kind, receiver })
        }
        _ => Err(LineFault::Bad),
    }
}

/// A decimal number below 256.
fn byte(word: &[u8]) -> Option<u8>
    ensures { result ≡ byte_of word.now }
{
    u8::try_from(number(word)?).ok()
}

/// What a restart finds in unsynced ranges: `old`, `new` or a byte.
fn torn(word: &[u8]) -> Option<Torn>
    ensures { result ≡ torn_of word.now }
{
    if word == b"old".as_slice() {
        Some(Torn::Old)
    } else if word == b"new".as_slice() {
        Some(Torn::New)
    } else {
        Some(Torn::Byte(byte(word)?))
    }
}

fn fuse(words: &[&[u8]]) -> Result<CellLine, LineFault>
    ensures { Reads result (fuse_of (map (λ w. w.now) words.now)) }
{
    match words {
        [name, calls, left] => {
            let node = node(name).ok_or(LineFault::Bad)?;
            let calls = number(calls).ok_or(LineFault::Bad)?;
            let torn = torn(left).ok_or(LineFault::Bad)?;
            Ok(CellLine::Fuse { node, calls, torn })
        }
        _ => Err(LineFault::Bad),
    }
}

fn rot(alloc: Global, words: &[&[u8]]) -> Result<CellLine, LineFault>
    ensures { Reads result (rot_of (map (λ w. w.now) words.now)) }
{
    match words {
        [name, path, index, place, value] => {
            let server = server(name).ok_or(LineFault::Bad)?;
            let chunk = file_chunk(alloc, &[path, index])?;
            let place = number(place).ok_or(LineFault::Bad)?;
            let byte = byte(value).ok_or(LineFault::Bad)?;
            Ok(CellLine::Rot {
                server,
                chunk,
                place,
                byte,
            })
        }
        _ => Err(LineFault::Bad),
    }
}

fn line_for(alloc: Global, words: &[&[u8]]) -> Result<CellLine, LineFault>
    ensures { Reads result (line_for (map (λ w. w.now) words.now)) }
{
    let Some((first, rest)) = words.split_first() else {
        return Err(LineFault::Bad);
    };
    if *first == b"start".as_slice() {
        Ok(CellLine::Start(started_call(alloc, rest)?))
    } else if *first == b"finish".as_slice() {
        alone(rest, CellLine::Finish)
    } else if *first == b"wait".as_slice() {
        Ok(CellLine::Wait(moments(rest)?))
    } else if *first == b"hold".as_slice() {
        Ok(CellLine::Hold(read_matter(rest)?))
    } else if *first == b"free".as_slice() {
        alone(rest, CellLine::Free)
    } else if *first == b"rebase".as_slice() {
        alone(rest, CellLine::Rebase)
    } else if *first == b"twice".as_slice() {
        Ok(CellLine::Twice(read_matter(rest)?))
    } else {
        node_line(alloc, first, rest)
    }
}

/// A line on one node, or one on a chunk, or a call.
fn node_line(alloc: Global, first: &[u8], rest: &[&[u8]]) -> Result<CellLine, LineFault>
    ensures { Reads result (node_line first.now (map (λ w. w.now) rest.now)) }
{
    if first == b"cut".as_slice() {
        Ok(CellLine::Cut(one_node(rest)?))
    } else if first == b"join".as_slice() {
        Ok(CellLine::Join(one_node(rest)?))
    } else if first == b"restart".as_slice() {
        Ok(CellLine::Restart(one_node(rest)?))
    } else if first == b"fuse".as_slice() {
        fuse(rest)
    } else {
        chunk_line(alloc, first, rest)
    }
}

/// A line on a chunk, or a call.
fn chunk_line(alloc: Global, first: &[u8], rest: &[&[u8]]) -> Result<CellLine, LineFault>
    ensures { Reads result (chunk_line first.now (map (λ w. w.now) rest.now)) }
{
    if first == b"rot".as_slice() {
        rot(alloc, rest)
    } else if first == b"regions".as_slice() {
        Ok(CellLine::Regions(file_chunk(alloc, rest)?))
    } else if first == b"replicas".as_slice() {
        Ok(CellLine::Replicas(file_chunk(alloc, rest)?))
    } else {
        Ok(CellLine::Call(client_call(alloc, first, rest)?))
    }
}

/// What a line asks for, without its line feed.
///
/// - `Bad`: the line isn't in the language, or has more than [`MAX_LINE`] bytes.
/// - `NoMemory`: memory for the words, the path or the data was refused.
pub fn parse(alloc: Global, line: &[u8]) -> Result<CellLine, LineFault>
    ensures { Reads result (line_of line.now) }
{
    if line.len() > MAX_LINE {
        return Err(LineFault::Bad);
    }
    if line.is_empty() || line[0] == b'#' {
        return Ok(CellLine::Nothing);
    }
    let words = split_words(alloc, line)?;
    line_for(alloc, words.as_slice())
}
