//! Tests: what words of a command line set, refuse and show. Names and defaults are those of `docs/SCRIPT.md`.

use command_line::command::{CommandFault, Request, Telling, parse};
use gfs_types::config::Config;
use script::options::Options;
use std::alloc::{AllocError, Global};
use std::fmt::Display;
use std::io::{self, ErrorKind, Write};
use std::test::Fail;

/// Each setting's option and default.
const SETTINGS: &str = "servers 3\n\
    clients 1\n\
    chunk 1048576\n\
    block 65536\n\
    goal 3\n\
    lease-ms 60000\n\
    skew-ms 2000\n\
    attempt-ms 5000\n\
    attempts 5\n\
    cache-entries 256\n\
    cache-ms 60000\n\
    push-entries 64\n\
    keep-ms 259200000\n\
    slots 32\n\
    log-bytes 16777216\n\
    journal 1048576\n";

/// The settings in the order of the table.
fn numbers(options: &Options) -> [u64; 16] {
    let Config {
        chunk,
        block,
        goal,
        lease_ms,
        skew_ms,
        attempt_ms,
        attempts,
        cache_entries,
        cache_ms,
        push_entries,
        keep_ms,
        slots,
        log_bytes,
        journal,
    } = options.config;
    [
        options.servers,
        options.clients,
        u64::from(chunk),
        u64::from(block),
        u64::from(goal),
        lease_ms,
        skew_ms,
        attempt_ms,
        u64::from(attempts),
        u64::from(cache_entries),
        cache_ms,
        u64::from(push_entries),
        keep_ms,
        u64::from(slots),
        log_bytes,
        u64::from(journal),
    ]
}

/// A name and what is given by it, if anything is.
fn write_given<W: Display>(text: &mut Vec<u8>, name: &str, given: &Option<W>) -> io::Result<()> {
    match given {
        Some(given) => write!(text, " {name} {given}"),
        None => Ok(()),
    }
}

/// The settings that aren't the defaults.
fn write_settings(text: &mut Vec<u8>, options: &Options) -> io::Result<()> {
    let numbers = numbers(options);
    for (setting, number) in SETTINGS.lines().zip(numbers.as_slice()) {
        let (name, default) = setting.split_once(' ').unwrap_or_default();
        if default.parse::<u64>().ok() != Some(*number) {
            write_given(text, name, &Some(*number))?;
        }
    }
    Ok(())
}

/// What is told of a run beside its answers.
fn write_told(text: &mut Vec<u8>, told: &Telling) -> io::Result<()> {
    if told.progress {
        write!(text, " progress")?;
    }
    write_given(text, "regions", &told.regions)?;
    write_given(text, "history", &told.history)
}

/// What is asked for: the way, the file, all else that is given, and the settings that aren't the defaults; or a text behind `shows`.
fn write_request(text: &mut Vec<u8>, request: &Request) -> io::Result<()> {
    match request {
        Request::Sim {
            file,
            names_heap,
            options,
        } => {
            write!(text, "sim {file}")?;
            write_given(text, "names-heap", names_heap)?;
            write_settings(text, options)
        }
        Request::Live {
            file,
            keep,
            told,
            options,
        } => {
            write!(text, "live {file}")?;
            write_given(text, "keep", keep)?;
            write_told(text, told)?;
            write_settings(text, options)
        }
        Request::Serve {
            keep,
            regions,
            options,
        } => {
            write!(text, "serve")?;
            write_given(text, "keep", keep)?;
            write_given(text, "regions", regions)?;
            write_settings(text, options)
        }
        Request::Show(shown) => write!(text, "shows {shown}"),
    }
}

/// The words of a command line, which one space separates.
fn words(alloc: Global, line: &str) -> Result<Vec<String>, AllocError> {
    let mut words = Vec::new(alloc);
    for word in line.split(' ') {
        words.push(String::from_str(alloc, word)?)?;
    }
    Ok(words)
}

/// What a command line asks for, or `nothing`. What owns a request has one way out, and calls `drop` there: a drop at the end of a scope is proved anew at each
/// place.
fn write_asked(text: &mut Vec<u8>, alloc: Global, words: &[String]) -> io::Result<()> {
    let asked = parse(alloc, words);
    let written = match &asked {
        Ok(request) => write_request(text, request),
        Err(CommandFault::Bad) => write!(text, "nothing"),
        Err(CommandFault::NoMemory) => Err(io::Error::from(ErrorKind::OutOfMemory)),
    };
    drop(asked);
    written
}

/// Whether a command line asks for what is wanted, where some of a text that it shows is enough.
fn asks_for(alloc: Global, line: &str, wanted: &str) -> Result<bool, Fail> {
    let words = words(alloc, line)?;
    let mut text = Vec::new(alloc);
    write_asked(&mut text, alloc, words.as_slice())?;
    let asked = str::from_utf8(text.as_slice())?;
    Ok(
        match (asked.strip_prefix("shows "), wanted.strip_prefix("shows ")) {
            (Some(shown), Some(part)) => shown.contains(part),
            _ => asked == wanted,
        },
    )
}

/// The first of these command lines that asks for something else than stands behind its arrow, or for anything where it has none.
fn first_other(alloc: Global, lines: &'static str) -> Result<Option<&'static str>, Fail> {
    for row in lines.lines() {
        let (line, wanted) = row.split_once(" -> ").unwrap_or((row, "nothing"));
        if !asks_for(alloc, line, wanted)? {
            return Ok(Some(row));
        }
    }
    Ok(None)
}

/// Whether the option of a setting sets it, and of the others the block alone, where it is the chunk's: the greatest power of two that divides 77 is 1.
fn is_set(alloc: Global, name: &str) -> Result<bool, Fail> {
    let line = format!(in alloc; "gfscell sim a.gfs --{name} 77")?;
    let block = if name == "chunk" { " block 1" } else { "" };
    let wanted = format!(in alloc; "sim a.gfs {name} 77{block}")?;
    asks_for(alloc, line.as_str(), wanted.as_str())
}

#[test]
fn sets_each_option(rt: HostRuntime) -> Result<(), Fail> {
    for setting in SETTINGS.lines() {
        let (name, _default) = setting.split_once(' ').unwrap_or_default();
        assert!(rt; is_set(rt.alloc(), name)?, "{name}");
    }
    Ok(())
}

/// Command lines that ask for a region, for threads, or for settings together.
const LINES: &str =
    "gfscell sim a.gfs --names-heap 16384 --servers 5 -> sim a.gfs names-heap 16384 servers 5\n\
    gfscell live a.live --servers 5 -> live a.live servers 5\n\
    gfscell live --progress a.live --servers 5 -> live a.live progress servers 5\n\
    gfscell live a.live --keep 100000 -> live a.live keep 100000\n\
    gfscell live --keep=7 --progress a.live --servers 5 -> live a.live keep 7 progress servers 5\n\
    gfscell live a.live --regions /log --history h -> live a.live regions /log history h\n\
    gfscell live --history=h a.live -> live a.live history h\n\
    gfscell serve -> serve\n\
    gfscell serve --clients 4 --slots 64 -> serve clients 4 slots 64\n\
    gfscell serve --keep 1000000 --clients 4 -> serve keep 1000000 clients 4\n\
    gfscell serve --regions /log --clients 4 -> serve regions /log clients 4\n\
    gfscell sim a.gfs -> sim a.gfs\n\
    gfscell sim a.gfs --chunk 64 -> sim a.gfs chunk 64 block 64\n\
    gfscell sim a.gfs --chunk 48 -> sim a.gfs chunk 48 block 16\n\
    gfscell sim a.gfs --chunk 131072 -> sim a.gfs chunk 131072\n\
    gfscell sim a.gfs --chunk 64 --block 16 -> sim a.gfs chunk 64 block 16\n\
    gfscell sim --servers=007 a.gfs -> sim a.gfs servers 7\n\
    gfscell sim a.gfs --servers 18446744073709551615 -> sim a.gfs servers 18446744073709551615\n\
    gfscell sim a.gfs --goal 4294967298 -> sim a.gfs goal 4294967295\n\
    gfscell sim - -> sim -\n\
    gfscell sim -- -f -> sim -f\n";

/// What is written of the defaults.
fn defaults(alloc: Global) -> io::Result<Vec<u8>> {
    let mut text = Vec::new(alloc);
    write_settings(&mut text, &Options::default())?;
    Ok(text)
}

// A block that isn't given is the greatest power of two that divides the chunk and is at most 65,536.
#[test]
fn sets_options_together(rt: HostRuntime) -> Result<(), Fail> {
    assert_eq!(rt; first_other(rt.alloc(), LINES)?, None);
    assert!(rt; defaults(rt.alloc())?.is_empty());
    Ok(())
}

const REFUSED: &str = "gfscell\n\
    gfscell help\n\
    gfscell live\n\
    gfscell live a.live b.live\n\
    gfscell serve a.live\n\
    gfscell serve -\n\
    gfscell serve --progress\n\
    gfscell serve --names-heap 16384\n\
    gfscell serve --clients x\n\
    gfscell serve --keep\n\
    gfscell serve --keep x\n\
    gfscell serve --regions\n\
    gfscell sim\n\
    gfscell a.gfs\n\
    gfscell sim a.gfs b.gfs\n\
    gfscell sim a.gfs --fast\n\
    gfscell live a.live --names-heap 16384\n\
    gfscell sim a.gfs --progress\n\
    gfscell sim a.gfs --keep 1000\n\
    gfscell sim a.gfs --regions /log\n\
    gfscell serve --history h\n\
    gfscell live a.live --regions\n\
    gfscell live a.live --keep\n\
    gfscell live a.live --keep x\n\
    gfscell live a.live --keep 1000 --keep 1000\n\
    gfscell live a.live --progress=1\n\
    gfscell live a.live --progress --progress\n\
    gfscell sim a.gfs --names-heap 16k\n\
    gfscell sim a.gfs --serv 3\n\
    gfscell sim a.gfs -s 3\n\
    gfscell sim a.gfs --servers\n\
    gfscell sim a.gfs --servers \n\
    gfscell sim a.gfs --servers= \n\
    gfscell sim a.gfs --servers 3 --servers 3\n\
    gfscell sim a.gfs --servers -1\n\
    gfscell sim a.gfs --servers +1\n\
    gfscell sim a.gfs --servers 1.0\n\
    gfscell sim a.gfs --servers 0x1\n\
    gfscell sim a.gfs --servers 1k\n\
    gfscell sim a.gfs --servers 18446744073709551616\n\
    gfscell sim a.gfs --chunk x\n\
    gfscell sim a.gfs --block x\n\
    gfscell sim a.gfs --journal x\n\
    gfscell sim --version\n";

#[test]
fn refuses_other_words(rt: HostRuntime) -> Result<(), Fail> {
    assert_eq!(rt; first_other(rt.alloc(), REFUSED)?, None);
    Ok(())
}

const SHOWN: &str = "gfscell --help -> shows sim\n\
    gfscell -h -> shows live\n\
    gfscell sim --help -> shows --lease-ms\n\
    gfscell sim a.gfs --help -> shows --journal\n\
    gfscell live --help -> shows --progress\n\
    gfscell serve --help -> shows --keep\n\
    gfscell --version -> shows gfscell 0.1.0\n\
    gfscell -V -> shows gfscell 0.1.0\n";

#[test]
fn shows_help(rt: HostRuntime) -> Result<(), Fail> {
    assert_eq!(rt; first_other(rt.alloc(), SHOWN)?, None);
    Ok(())
}
