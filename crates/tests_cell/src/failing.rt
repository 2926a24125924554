//! Readers and writers that fail.

use crate::outcome::small_cell;
use script::script_fault::ScriptFault;
use shell::run::run_script;
use std::alloc::Global;
use std::io::{self, BufReader, ErrorKind, Read, Write};

/// Gives its bytes, one at a time, and then ends or fails. Before each it answers `Interrupted`.
#[derive(Drop)]
struct SlowReader<'a> {
    rest: &'a [u8],
    end: Option<ErrorKind>,
    is_ready: bool,
}

impl Read for SlowReader<'_> {
    fn read(&mut self, buffer: &mut [u8]) -> io::Result<usize> {
        self.is_ready = !self.is_ready;
        if !self.is_ready {
            return Err(io::Error::from(ErrorKind::Interrupted));
        }
        match self.end {
            Some(kind) if self.rest.is_empty() => Err(io::Error::from(kind)),
            _ => {
                let count = buffer.len().min(self.rest.len()).min(1);
                buffer[..count].copy_from_slice(&self.rest[..count]);
                self.rest = &self.rest[count..];
                Ok(count)
            }
        }
    }
}

/// Takes so many bytes and so many flushes, and then fails.
#[derive(Drop)]
struct FullWriter {
    room: usize,
    flushes: usize,
    kind: ErrorKind,
    seen: Vec<u8>,
}

impl Write for FullWriter {
    fn write(&mut self, bytes: &[u8]) -> io::Result<usize> {
        let room = self.room.saturating_sub(self.seen.len());
        if room == 0 && !bytes.is_empty() {
            return Err(io::Error::from(self.kind));
        }
        let count = room.min(bytes.len());
        self.seen.extend_from_slice(&bytes[..count])?;
        Ok(count)
    }

    fn flush(&mut self) -> io::Result<()> {
        if self.flushes == 0 {
            return Err(io::Error::from(self.kind));
        }
        self.flushes = self.flushes.saturating_sub(1);
        Ok(())
    }
}

/// Whether a script whose reader ends so ends so itself, and prints this.
fn reads_to(
    alloc: Global,
    reader_end: Option<ErrorKind>,
    end: Result<(), ScriptFault>,
    expected: &str,
) -> bool {
    let reader = SlowReader {
        rest: b"c1 mkdir /a\n\nc1 list /",
        end: reader_end,
        is_ready: true,
    };
    let Ok(mut reader) = BufReader::new(alloc, reader) else {
        return false;
    };
    let mut writer = Vec::new(alloc);
    let result = run_script(alloc, &small_cell(), &mut reader, &mut writer);
    let is_printed = writer.as_slice() == expected.as_bytes();
    drop(reader);
    drop(writer);
    result == end && is_printed
}

#[test]
fn readers_end_and_fail(rt: HostRuntime) {
    let rows: [(Option<ErrorKind>, Result<(), ScriptFault>, &str); 3] = [
        (None, Ok(()), "c1 done\nc1 names 2 .gone/ a/\n"),
        (Some(ErrorKind::Other), Err(ScriptFault::Read), "c1 done\n"),
        (
            Some(ErrorKind::OutOfMemory),
            Err(ScriptFault::NoMemory),
            "c1 done\n",
        ),
    ];
    for (reader_end, end, expected) in rows {
        assert!(rt; reads_to(rt.alloc(), reader_end, end, expected));
    }
}

const SCRIPT: &str = "c1 create /f\nc1 open /f\nc1 append 1 ab\nregions /f 0\nreplicas /f 0\n";

const PRINTED: &str =
    "c1 done\nc1 fd 1\nc1 at 0\nregions 0-2 determined\nreplicas 1 s1 v1 2, s2 v1 2, s3 v1 2\n";

/// Where the lines of `PRINTED` end.
const LINE_ENDS: [usize; 5] = [8, 16, 24, 47, 84];

/// Whether the script ends so by a writer of this room and so many flushes, which then has seen so many bytes of what is printed.
fn writes_to(
    alloc: Global,
    (room, flushes, kind): (usize, usize, ErrorKind),
    end: Result<(), ScriptFault>,
    count: usize,
) -> bool {
    let mut reader = SCRIPT.as_bytes();
    let mut writer = FullWriter {
        room,
        flushes,
        kind,
        seen: Vec::new(alloc),
    };
    let result = run_script(alloc, &small_cell(), &mut reader, &mut writer);
    let is_printed = writer.seen.len() == count
        && PRINTED.as_bytes().starts_with(writer.seen.as_slice());
    drop(writer);
    result == end && is_printed
}

/// The kinds of errors, and what the script's fault is then.
const KINDS: [(ErrorKind, ScriptFault); 2] = [
    (ErrorKind::Other, ScriptFault::Write),
    (ErrorKind::OutOfMemory, ScriptFault::NoMemory),
];

// A writer fails at each byte in turn, and a flush after each line, before the next one is run.
#[test]
fn writers_fail(rt: HostRuntime) {
    let alloc = rt.alloc();
    for (kind, fault) in KINDS {
        for room in 0..PRINTED.len() {
            assert!(rt; writes_to(alloc, (room, 9, kind), Err(fault), room));
        }
        for (flushes, end) in LINE_ENDS.iter().enumerate() {
            assert!(rt; writes_to(alloc, (1_000, flushes, kind), Err(fault), *end));
        }
    }
    assert!(rt; writes_to(alloc, (84, 5, ErrorKind::Other), Ok(()), 84));
}
