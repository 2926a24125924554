//! Words that stand for a path or for data.

ghost use Rattle.std.specs.Prelude.{◌≡◌, ◌<◌, IfOk, IsTrue, length, option_map};
ghost use Rattle.script.specs.Words.{Reads, all_printable, is_repeated, text_of, path_of, full_path_of, data_of, repeated_of};

use crate::fault::LineFault;
use crate::numbers::{is_numeral, number};
use bytes::Bytes;
use gfs_types::lists::Text;
use gfs_types::path::Path;
use std::alloc::{AllocError, Global};
use std::str;

/// The bytes of data in one call, at most.
pub const MAX_DATA: u64 = 67_108_864;

/// What a data word stands for.
#[derive(Drop)]
pub enum Data {
    Bytes(Bytes),
    /// More than [`MAX_DATA`] bytes, which are not built.
    TooLong,
}

/// A word as text, where it is UTF-8.
fn text(word: &[u8]) -> Option<&str>
    ensures { option_map (λ t. t.now) result ≡ text_of word.now }
{
    match str::from_utf8(word) {
        Ok(text) => Some(text),
        Err(_) => None,
    }
}

/// The text of a path: any that is not empty and has no carriage return.
fn path_text(word: &[u8]) -> Option<&str>
    ensures { option_map (λ t. t.now) result ≡ path_of word.now }
{
    if word.is_empty() || word.contains(&b'\r') {
        return None;
    }
    text(word)
}

/// A path of a call, which need not be a full path: that is the master's to say.
pub fn read_path(alloc: Global, word: &[u8]) -> Result<Text, LineFault>
    ensures { Reads result (path_of word.now) }
{
    match path_text(word) {
        Some(text) => Ok(Text::new(String::from_str(alloc, text)?)),
        None => Err(LineFault::Bad),
    }
}

/// The path of a file whose chunk is asked for: a full path.
pub fn read_full_path(alloc: Global, word: &[u8]) -> Result<Path, LineFault>
    ensures { Reads result (full_path_of word.now) }
{
    match path_text(word) {
        Some(text) => Ok(Path::parse(alloc, text)?),
        None => Err(LineFault::Bad),
    }
}

/// One byte, so often.
fn repeated(alloc: Global, byte: u8, count: u64) -> Result<Data, AllocError>
    ensures { IfOk result (λ d. d ≡ repeated_of byte count) }
{
    if count > MAX_DATA {
        return Ok(Data::TooLong);
    }
    let bytes = vec![in alloc; byte; count as usize]?;
    Ok(Data::Bytes(Bytes::from_vec(bytes)?))
}

fn all_printable(word: &[u8]) -> bool
    ensures { result ≡ all_printable word.now }
{
    word.iter().all(|byte| (33..=126).contains(byte))
}

/// Whether a word is a byte, a star and a numeral.
fn is_repeated(word: &[u8]) -> bool
    ensures value { result ≡ is_repeated word.now }
    ensures long { IsTrue result → 2 < length word.now }
{
    word.len() > 2 && word[1] == b'*' && is_numeral(&word[2..])
}

/// Data: printable ASCII bytes (33 to 126) as they stand, or one such byte, `*` and how often it comes.
pub fn read_data(alloc: Global, word: &[u8]) -> Result<Data, LineFault>
    ensures { Reads result (data_of word.now) }
{
    if word.is_empty() || !all_printable(word) {
        return Err(LineFault::Bad);
    }
    if is_repeated(word) {
        let count = number(&word[2..]).ok_or(LineFault::Bad)?;
        return Ok(repeated(alloc, word[0], count)?);
    }
    Ok(Data::Bytes(Bytes::copy_from_slice(alloc, word)?))
}
