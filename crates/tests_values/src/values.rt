//! Paths, shapes, settings, refusals, and what is printed.

use command_line::narrowed::narrowed;
use gfs_types::config::{Config, ConfigFault};
use gfs_types::no_memory::NoMemory;
use gfs_types::path::{Path, PathFault};
use gfs_types::refusal::Refusal;
use gfs_types::shape::Shape;
use std::alloc::Global;
use std::test::Fail;

// paths

/// Whether the text is a path, and stays as it is.
fn is_path(alloc: Global, text: &str) -> bool {
    match Path::parse(alloc, text) {
        Ok(path) => path.as_str() == text,
        Err(_) => false,
    }
}

fn is_bad_path(alloc: Global, text: &str) -> bool {
    matches!(Path::parse(alloc, text), Err(PathFault::BadPath))
}

#[test]
fn a_path_is_parsed_exactly_in_the_grammar(rt: HostRuntime) {
    for text in ["/", "/a", "/a/b", "/.gone", "/.gone/x", "/...", "/a b"] {
        assert!(rt; is_path(rt.alloc(), text), "{text}");
    }
    for text in [
        "", "a", "/x//y", "/..", "/.", "/a/", "//", "/a/../b", "/a\0b",
    ] {
        assert!(rt; is_bad_path(rt.alloc(), text), "{text}");
    }
}

#[test]
fn a_path_is_copied(rt: HostRuntime) -> Result<(), Fail> {
    Path::parse(rt.alloc(), "/a")?.copy(rt.alloc())?;
    Path::parse(rt.alloc(), "/a")?.to_text(rt.alloc())?;
    Ok(())
}

/// The first text, and then so many of the part.
fn repeated(alloc: Global, first: &str, part: &str, count: usize) -> Result<String, NoMemory> {
    let mut text = String::from_str(alloc, first)?;
    for _ in 0..count {
        text.push_str(part)?;
    }
    Ok(text)
}

#[test]
fn a_path_ends_at_its_bounds(rt: HostRuntime) -> Result<(), Fail> {
    for (first, part, count) in [("/", "x", 255), ("", "/x", 2_048)] {
        assert!(rt;
            is_path(
                rt.alloc(),
                repeated(rt.alloc(), first, part, count)?.as_str()
            )
        );
    }
    for (first, part, count) in [("/", "x", 256), ("/xx", "/x", 2_047)] {
        assert!(rt;
            is_bad_path(
                rt.alloc(),
                repeated(rt.alloc(), first, part, count)?.as_str()
            )
        );
    }
    Ok(())
}

// shapes

fn fits(config: &Config, chunk: u32, goal: u8) -> bool {
    config.block >= 1 && Shape { chunk, goal }.fits(config)
}

#[test]
fn a_shape_fits_within_its_bounds(rt: HostRuntime) {
    let mut config = Config::default();
    config.chunk = 128;
    config.block = 16;
    for (chunk, goal) in [(64, 1), (64, 8), (80, 3), (112, 8), (128, 1), (128, 8)] {
        assert!(rt; fits(&config, chunk, goal), "{chunk} {goal}");
    }
    // at least 64, of whole blocks, and at most the settings' chunk
    for chunk in [0, 16, 48, 63, 65, 72, 127, 129, 144, 256, 4_294_967_295] {
        assert!(rt; !fits(&config, chunk, 1), "{chunk}");
    }
    for goal in [0, 9, 255] {
        assert!(rt; !fits(&config, 128, goal), "{goal}");
    }
    // whatever the settings are
    config.chunk = 48;
    assert!(rt; !fits(&config, 48, 1));
    config.chunk = 72;
    assert!(rt; !fits(&config, 72, 1));
    assert!(rt; fits(&config, 64, 1));
}

// settings

/// The settings with these numbers, in the order of their fields.
fn settings(numbers: [u64; 14]) -> Config {
    Config {
        chunk: narrowed(numbers[0]),
        block: narrowed(numbers[1]),
        goal: narrowed(numbers[2]),
        lease_ms: numbers[3],
        skew_ms: numbers[4],
        attempt_ms: numbers[5],
        attempts: narrowed(numbers[6]),
        cache_entries: narrowed(numbers[7]),
        cache_ms: numbers[8],
        push_entries: narrowed(numbers[9]),
        keep_ms: numbers[10],
        slots: narrowed(numbers[11]),
        log_bytes: numbers[12],
        journal: narrowed(numbers[13]),
    }
}

/// Why the settings are refused, once this number stands in that place.
fn fault_with(numbers: &mut [u64; 14], place: usize, number: u64) -> Option<ConfigFault> {
    if let Some(at) = numbers.as_mut_slice().get_mut(place) {
        *at = number;
    }
    settings(*numbers).check().err()
}

/// Of each field numbers that are refused, and some that are taken, of which the last one stays while later fields are tried.
const RANGES: [(ConfigFault, &[u64], &[u64]); 14] = [
    (
        ConfigFault::Chunk,
        &[0, 48, 72, 67_108_880, 4_294_967_280],
        &[64, 80, 67_108_864, 1_048_576],
    ),
    (ConfigFault::Block, &[0, 8, 48, 131_072], &[65_536, 16]),
    (ConfigFault::Goal, &[0, 9], &[1, 8]),
    (ConfigFault::LeaseMs, &[0, 3_600_001], &[1, 3_600_000]),
    (ConfigFault::SkewMs, &[60_001], &[0, 60_000]),
    (ConfigFault::AttemptMs, &[0, 600_001], &[1, 600_000]),
    (ConfigFault::Attempts, &[0, 17], &[1, 16]),
    (ConfigFault::CacheEntries, &[0, 65_537], &[1, 65_536]),
    (ConfigFault::CacheMs, &[0, 86_400_001], &[1, 86_400_000]),
    (ConfigFault::PushEntries, &[0, 4_097], &[1, 4_096]),
    (
        ConfigFault::KeepMs,
        &[0, 31_536_000_001],
        &[1, 31_536_000_000],
    ),
    (ConfigFault::Slots, &[0, 65_537], &[1, 65_536]),
    (
        ConfigFault::LogBytes,
        &[4_095, 1_073_741_825],
        &[4_096, 1_073_741_824],
    ),
    (ConfigFault::Journal, &[15, 16_777_217], &[16, 16_777_216]),
];

const IN_RANGE: [u64; 14] = [64, 16, 1, 3_600_000, 0, 1, 1, 1, 1, 1, 1, 1, 4_096, 16];

const OUT_OF_RANGE: [u64; 14] = [0, 0, 0, 0, 60_001, 0, 0, 0, 0, 0, 0, 0, 0, 0];

/// Each number where nothing else is out of its range, and where all later fields are.
#[test]
fn the_first_setting_out_of_its_range_is_named(rt: HostRuntime) {
    let mut alone = IN_RANGE;
    let mut first = OUT_OF_RANGE;
    for (place, (fault, refused, taken)) in RANGES.iter().enumerate() {
        for number in *refused {
            let named = [
                fault_with(&mut alone, place, *number),
                fault_with(&mut first, place, *number),
            ];
            assert!(rt; named == [Some(*fault); 2], "{fault}: {number}");
        }
        for number in *taken {
            let none = fault_with(&mut alone, place, *number);
            let later = fault_with(&mut first, place, *number);
            assert!(rt;
                none.is_none() && later != Some(*fault),
                "{fault}: {number}"
            );
        }
    }
    let mut config = Config::default();
    assert!(rt; config.check() == Ok(()));
    // a clock bound is below the lease
    config.lease_ms = 2_000;
    assert!(rt; config.check() == Err(ConfigFault::SkewMs));
    config.lease_ms = 2_001;
    assert!(rt; config.check() == Ok(()));
}

// refusals

const CLIENT_REFUSALS: [(Refusal, u8, &str); 22] = [
    (Refusal::BadPath, 1, "BadPath"),
    (Refusal::NoParent, 2, "NoParent"),
    (Refusal::Exists, 3, "Exists"),
    (Refusal::NotFound, 4, "NotFound"),
    (Refusal::NotFile, 5, "NotFile"),
    (Refusal::NotDir, 6, "NotDir"),
    (Refusal::NotEmpty, 7, "NotEmpty"),
    (Refusal::Reserved, 8, "Reserved"),
    (Refusal::Inside, 9, "Inside"),
    (Refusal::Busy, 10, "Busy"),
    (Refusal::TooLong, 11, "TooLong"),
    (Refusal::BadFd, 12, "BadFd"),
    (Refusal::NamesFull, 13, "NamesFull"),
    (Refusal::Collected, 14, "Collected"),
    (Refusal::NoReplica, 15, "NoReplica"),
    (Refusal::Failed, 16, "Failed"),
    (Refusal::Unknown, 17, "Unknown"),
    (Refusal::NoMemory, 18, "NoMemory"),
    (Refusal::ClockBroken, 19, "ClockBroken"),
    (Refusal::JournalFull, 20, "JournalFull"),
    (Refusal::Closed, 21, "Closed"),
    (Refusal::BadSize, 22, "BadSize"),
];

const SERVER_REFUSALS: [(Refusal, u8, &str); 12] = [
    (Refusal::NoChunk, 31, "NoChunk"),
    (Refusal::Version, 32, "Version"),
    (Refusal::NoLease, 33, "NoLease"),
    (Refusal::NoData, 34, "NoData"),
    (Refusal::OldSerial, 35, "OldSerial"),
    (Refusal::OldRequest, 36, "OldRequest"),
    (Refusal::Late, 37, "Late"),
    (Refusal::Corrupt, 38, "Corrupt"),
    (Refusal::NoRoom, 39, "NoRoom"),
    (Refusal::OldOrder, 40, "OldOrder"),
    (Refusal::ChunkFull, 41, "ChunkFull"),
    (Refusal::ServerTooLong, 42, "TooLong"),
];

/// The first of these refusals that has another number or name, or is one of the others.
fn first_other<'a>(rows: &[(Refusal, u8, &'a str)], is_of_client: bool) -> Option<&'a str> {
    for (refusal, number, name) in rows {
        let is_named = refusal.number() == *number && refusal.name() == *name;
        if !is_named || refusal.is_of_client() != is_of_client {
            return Some(*name);
        }
    }
    None
}

#[test]
fn a_clients_refusals(rt: HostRuntime) {
    assert_eq!(rt; first_other(&CLIENT_REFUSALS, true), None);
}

#[test]
fn a_servers_refusals(rt: HostRuntime) {
    assert_eq!(rt; first_other(&SERVER_REFUSALS, false), None);
}

#[test]
fn printed_refusals(rt: HostRuntime) -> Result<(), Fail> {
    let text = format!(in rt.alloc(); "{} {}", Refusal::Exists, Refusal::ServerTooLong)?;
    assert!(rt; text.as_str() == "3 Exists 42 TooLong");
    Ok(())
}

#[test]
fn printed_settings(rt: HostRuntime) -> Result<(), Fail> {
    let text = format!(in rt.alloc(); "{} {}", ConfigFault::LeaseMs.name(), ConfigFault::Journal)?;
    assert!(rt; text.as_str() == "lease_ms journal is out of its range");
    Ok(())
}

#[test]
fn printed_faults(rt: HostRuntime) -> Result<(), Fail> {
    let text = format!(in rt.alloc(); "{} {} {NoMemory}", PathFault::BadPath, PathFault::NoMemory)?;
    assert!(rt; text.as_str() == "bad path no memory no memory");
    Ok(())
}

#[test]
fn a_printed_path(rt: HostRuntime) -> Result<(), Fail> {
    let text = format!(in rt.alloc(); "{}", Path::parse(rt.alloc(), "/a/b")?)?;
    assert!(rt; text.as_str() == "/a/b");
    Ok(())
}
