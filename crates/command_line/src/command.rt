//! The words of a command line.

ghost use Rattle.std.specs.Prelude.{◌≡◌, Some, IfOk, IfErr, is_ok, map, string_bytes, false};
ghost use Rattle.clap.specs.Words.{app_of, shape_of, found_of, kind_of, rows_of, rule_of};
ghost use Rattle.command_line.specs.Program.{flag_named, names, option_named, option_names, player, program, regions, runner, server, setting_names, simulator, with_options};
ghost use Rattle.command_line.specs.Asking.{Answers, Becomes, Runs, Serves, all_numbered, config_of, given_number, is_given, is_live, is_numbered, is_served, narrow_for, number_for, options_of, told_by, told_of};
ghost use Rattle.command_line.specs.Faults.{fault_text};
ghost use Rattle.command_line.specs.declared.command.CommandFault.TheVariants.{Bad, NoMemory};

use crate::narrowed::narrowed;
use clap::error::ErrorKind;
use clap::{Arg, ArgAction, ArgMatches, Command};
use gfs_types::config::{Config, default_block};
use script::numbers::number;
use script::options::Options;
use std::alloc::{AllocError, Global};
use std::error::Error;
use std::fmt;

/// What a command line asks for.
#[derive(Debug, Drop)]
pub enum Request<'a> {
    /// To run the script of a file by the simulator, where `-` is standard input, with the names in a region of so many bytes.
    Sim {
        file: &'a str,
        names_heap: Option<u64>,
        options: Options,
    },
    /// To run it on a cell with threads, of whose journal so many entries stay, or all, and to tell more of it than the answers.
    Live {
        file: &'a str,
        keep: Option<u64>,
        told: Telling<'a>,
        options: Options,
    },
    /// To serve a cell with threads, of whose journal so many entries stay, or all, and to tell the regions of the file of a path at its end.
    Serve {
        keep: Option<u64>,
        regions: Option<&'a str>,
        options: Options,
    },
    /// To print this text: the help or the version.
    Show(String),
}

/// What is told of a run on a cell with threads beside its answers: how far it is meanwhile, the regions of the file of a path at its end, and into which
/// file its history is written.
#[derive(Clone, Copy, Debug)]
pub struct Telling<'a> {
    pub progress: bool,
    pub regions: Option<&'a str>,
    pub history: Option<&'a str>,
}

/// Why a command line asks for nothing.
#[derive(Clone, Copy, Debug, PartialEq, Eq)]
pub enum CommandFault {
    /// The words aren't a command line, or a number isn't a decimal one below 2^64 without sign.
    Bad,
    /// Memory was refused.
    NoMemory,
}

impl fmt::Display for CommandFault {
    ghost output = { λ fault. Some (fault_text fault) };

    fn fmt<W: fmt::Write>(&self, f: &mut fmt::Formatter<W>) -> fmt::Result {
        match self {
            CommandFault::Bad => write!(f, "bad command line"),
            CommandFault::NoMemory => write!(f, "no memory"),
        }
    }
}

impl Error for CommandFault {}

impl From<AllocError> for CommandFault {
    ghost from_gives = { λ _ fault. fault ≡ NoMemory };

    fn from(_error: AllocError) -> CommandFault {
        CommandFault::NoMemory
    }
}

/// The options' names, and what the help says of each.
const OPTIONS: [(&str, &str); 16] = [
    ("servers", "Chunkservers [default: 3]"),
    ("clients", "Clients [default: 1]"),
    (
        "chunk",
        "Bytes of a chunk, 64 to 67108864 [default: 1048576]",
    ),
    (
        "block",
        "Bytes of a block, 16 to 65536 [default: the greatest power of two up to 65536 that divides the chunk]",
    ),
    ("goal", "Replicas wanted, 1 to 8 [default: 3]"),
    ("lease-ms", "Milliseconds of a lease [default: 60000]"),
    (
        "skew-ms",
        "How far a clock may be behind another [default: 2000]",
    ),
    ("attempt-ms", "Milliseconds of an attempt [default: 5000]"),
    (
        "attempts",
        "Attempts of a call or of a part of it, 1 to 16 [default: 5]",
    ),
    (
        "cache-entries",
        "Locations that a client keeps [default: 256]",
    ),
    ("cache-ms", "Life of a location [default: 60000]"),
    (
        "push-entries",
        "Pushed data that a server keeps [default: 64]",
    ),
    ("keep-ms", "Life of a deleted file [default: 259200000]"),
    ("slots", "Replicas on one server's disk [default: 32]"),
    (
        "log-bytes",
        "Bytes of the master's disk [default: 16777216]",
    ),
    ("journal", "Events of a running cell [default: 1048576]"),
];

/// The option of the simulator alone.
const REGION: [(&str, &str); 1] = [(
    "names-heap",
    "Bytes of a region for the names [default: none, they share the memory of all]",
)];

/// The option of both cells with threads.
const KEEP: [(&str, &str); 1] = [(
    "keep",
    "Last events that stay in memory, where the journal has no end [default: none, all stay]",
)];

/// A flag by a long name.
fn flag<'a>(alloc: Global, name: &'a str, help: &'a str) -> Arg<'a>
    ensures rule { rule_of result ≡ flag_named name.entry.now }
    ensures local { result.global ≡ false }
{
    Arg::new(alloc, name)
        .long(name)
        .help(help)
        .action(ArgAction::SetTrue)
}

/// An option by a long name, which takes one number.
fn option<'a>(alloc: Global, name: &'a str, help: &'a str) -> Arg<'a>
    ensures rule { rule_of result ≡ option_named name.entry.now }
    ensures local { result.global ≡ false }
{
    Arg::new(alloc, name)
        .long(name)
        .value_name("N")
        .help(help)
        .action(ArgAction::Set)
}

/// An option by a long name, which takes one word, of which the help says this.
fn word_option<'a>(alloc: Global, name: &'a str, word: &'a str, help: &'a str) -> Arg<'a>
    ensures rule { rule_of result ≡ option_named name.entry.now }
    ensures local { result.global ≡ false }
{
    Arg::new(alloc, name)
        .long(name)
        .value_name(word)
        .help(help)
        .action(ArgAction::Set)
}

/// The option of both cells with threads that names the file whose regions are wanted.
fn regions_option<'a>(alloc: Global) -> Arg<'a>
    ensures rule { rule_of result ≡ option_named regions }
    ensures local { result.global ≡ false }
{
    word_option(
        alloc,
        "regions",
        "PATH",
        "Prints the regions of the chunks of this file behind all answers",
    )
}

/// The command with an option for each of these, which are names and what the help says of them.
fn with_options<'a>(
    alloc: Global,
    mut command: Command<'a>,
    options: &[(&'a str, &'a str)],
) -> Result<Command<'a>, AllocError>
    ensures { IfOk result (λ r. app_of r ≡ with_options (app_of command.entry) (names options.now)) }
{
    for (name, help) in options {
        command = command.arg(option(alloc, name, help))?;
    }
    Ok(command)
}

/// The subcommand that serves a cell with threads.
fn server<'a>(alloc: Global) -> Result<Command<'a>, AllocError>
    ensures { IfOk result (λ command. shape_of command ≡ server) }
{
    let command = Command::new(alloc, "serve").about("Serves a cell with threads through a pipe");
    let command = with_options(alloc, command, &OPTIONS)?;
    let command = with_options(alloc, command, &KEEP)?;
    command.arg(regions_option(alloc))
}

/// A subcommand that runs a script.
fn runner<'a>(alloc: Global, name: &'a str, about: &'a str) -> Result<Command<'a>, AllocError>
    ensures { IfOk result (λ command. shape_of command ≡ runner name.entry.now) }
{
    let file = Arg::new(alloc, "FILE")
        .help("The script, or - for standard input")
        .required(true);
    let command = Command::new(alloc, name).about(about).arg(file)?;
    with_options(alloc, command, &OPTIONS)
}

/// The subcommand that runs a script by the simulator.
fn simulator<'a>(alloc: Global) -> Result<Command<'a>, AllocError>
    ensures { IfOk result (λ command. shape_of command ≡ simulator) }
{
    let command = runner(alloc, "sim", "Runs a script on a simulated cell")?;
    with_options(alloc, command, &REGION)
}

/// The subcommand that runs a script on a cell with threads.
fn player<'a>(alloc: Global) -> Result<Command<'a>, AllocError>
    ensures { IfOk result (λ command. shape_of command ≡ player) }
{
    let command = runner(alloc, "live", "Runs a script on a cell with threads")?;
    let command = with_options(alloc, command, &KEEP)?;
    let command = command.arg(regions_option(alloc))?;
    let command = command.arg(word_option(
        alloc,
        "history",
        "TO",
        "Writes all calls and answers into this file, in the order of the journal",
    ))?;
    command.arg(flag(
        alloc,
        "progress",
        "Tells on standard error, once a second, calls answered, events, and room left in the journal",
    ))
}

fn command<'a>(alloc: Global) -> Result<Command<'a>, AllocError>
    ensures { IfOk result (λ command. app_of command ≡ program) }
{
    Command::new(alloc, "gfscell")
        .version("0.1.0")
        .about("A Google File System cell")
        .disable_help_subcommand(true)
        .subcommand_required(true)
        .subcommand(simulator(alloc)?)?
        .subcommand(player(alloc)?)?
        .subcommand(server(alloc)?)
}

/// The value of an option, or `default` where it isn't given.
fn value(matches: &ArgMatches<'_>, name: &str, default: u64) -> Result<u64, CommandFault>
    ensures ok { IfOk result (λ n. n ≡ number_for (rows_of (found_of matches.now)) name.now default) }
    ensures all { is_ok result ≡ is_numbered (rows_of (found_of matches.now)) name.now }
    ensures err { IfErr result (λ fault. fault ≡ Bad) }
{
    match matches.get_str(name) {
        None => Ok(default),
        Some(text) => number(text.as_bytes()).ok_or(CommandFault::Bad),
    }
}

fn narrow_value(matches: &ArgMatches<'_>, name: &str, default: u32) -> Result<u32, CommandFault>
    ensures ok { IfOk result (λ n. n ≡ narrow_for (rows_of (found_of matches.now)) name.now default) }
    ensures all { is_ok result ≡ is_numbered (rows_of (found_of matches.now)) name.now }
    ensures err { IfErr result (λ fault. fault ≡ Bad) }
{
    Ok(narrowed(value(matches, name, u64::from(default))?))
}

fn config(matches: &ArgMatches<'_>) -> Result<Config, CommandFault>
    ensures ok { IfOk result (λ config. config ≡ config_of (rows_of (found_of matches.now))) }
    ensures all { is_ok result ≡ all_numbered (rows_of (found_of matches.now)) setting_names }
    ensures err { IfErr result (λ fault. fault ≡ Bad) }
{
    let default = Config::default();
    let chunk = narrow_value(matches, "chunk", default.chunk)?;
    Ok(Config {
        chunk,
        block: narrow_value(matches, "block", default_block(chunk))?,
        goal: narrow_value(matches, "goal", default.goal)?,
        lease_ms: value(matches, "lease-ms", default.lease_ms)?,
        skew_ms: value(matches, "skew-ms", default.skew_ms)?,
        attempt_ms: value(matches, "attempt-ms", default.attempt_ms)?,
        attempts: narrow_value(matches, "attempts", default.attempts)?,
        cache_entries: narrow_value(matches, "cache-entries", default.cache_entries)?,
        cache_ms: value(matches, "cache-ms", default.cache_ms)?,
        push_entries: narrow_value(matches, "push-entries", default.push_entries)?,
        keep_ms: value(matches, "keep-ms", default.keep_ms)?,
        slots: narrow_value(matches, "slots", default.slots)?,
        log_bytes: value(matches, "log-bytes", default.log_bytes)?,
        journal: narrow_value(matches, "journal", default.journal)?,
    })
}

/// The value of an option without a default, where it is given.
fn given_number(matches: &ArgMatches<'_>, name: &str) -> Result<Option<u64>, CommandFault>
    ensures ok { IfOk result (λ n. n ≡ given_number (rows_of (found_of matches.now)) name.now) }
    ensures all { is_ok result ≡ is_numbered (rows_of (found_of matches.now)) name.now }
    ensures err { IfErr result (λ fault. fault ≡ Bad) }
{
    let Some(text) = matches.get_str(name) else {
        return Ok(None);
    };
    match number(text.as_bytes()) {
        Some(value) => Ok(Some(value)),
        None => Err(CommandFault::Bad),
    }
}

fn options(matches: &ArgMatches<'_>) -> Result<Options, CommandFault>
    ensures ok { IfOk result (λ options. options ≡ options_of (rows_of (found_of matches.now))) }
    ensures all { is_ok result ≡ all_numbered (rows_of (found_of matches.now)) option_names }
    ensures err { IfErr result (λ fault. fault ≡ Bad) }
{
    let default = Options::default();
    Ok(Options {
        servers: value(matches, "servers", default.servers)?,
        clients: value(matches, "clients", default.clients)?,
        config: config(matches)?,
    })
}

/// Whether a flag is given.
fn is_given(matches: &ArgMatches<'_>, name: &str) -> bool
    ensures { result ≡ is_given (rows_of (found_of matches.now)) name.now }
{
    match matches.get_str(name) {
        Some(text) => text == "true",
        None => false,
    }
}

/// What a parse that found no matches comes to: a text to show, or a fault.
fn shown<'a>(alloc: Global, error: &clap::Error) -> Result<Request<'a>, CommandFault>
    ensures { Becomes (kind_of error.now) result }
{
    match error.kind() {
        ErrorKind::DisplayHelp | ErrorKind::DisplayVersion => {
            Ok(Request::Show(format!(in alloc; "{error}")?))
        }
        ErrorKind::OutOfMemory => Err(CommandFault::NoMemory),
        _ => Err(CommandFault::Bad),
    }
}

/// What the words of a command line ask for. The first word is the program's name. Only for want of memory the answer is
/// another than that, and then it says so.
pub fn parse<'a>(alloc: Global, words: &'a [String]) -> Result<Request<'a>, CommandFault>
    ensures { Answers (map string_bytes words.entry.now) result }
{
    let matches = match command(alloc)?.try_get_matches_from(words) {
        Ok(matches) => matches,
        Err(error) => return shown(alloc, &error),
    };
    let Some((name, given)) = matches.subcommand() else {
        return Err(CommandFault::Bad);
    };
    if is_serve(name) {
        return serving(given);
    }
    let file = given.get_str("FILE").ok_or(CommandFault::Bad)?;
    let names_heap = given_number(given, "names-heap")?;
    let keep = given_number(given, "keep")?;
    let options = options(given)?;
    let told = told_in(given);
    Ok(request_for(name, file, names_heap, keep, told, options))
}

/// What is to be told of a run beside its answers.
fn told_in<'a>(matches: &ArgMatches<'a>) -> Telling<'a>
    ensures { told_of result ≡ told_by (rows_of (found_of matches.now)) }
{
    Telling {
        progress: is_given(matches, "progress"),
        regions: matches.get_str("regions"),
        history: matches.get_str("history"),
    }
}

/// Whether it is the subcommand that serves a cell.
fn is_serve(name: &str) -> bool
    ensures { result ≡ is_served name.now }
{
    name == "serve"
}

/// What the subcommand asks for that serves a cell.
fn serving<'a>(matches: &ArgMatches<'a>) -> Result<Request<'a>, CommandFault>
    ensures { Serves (rows_of (found_of matches.now)) result }
{
    let keep = given_number(matches, "keep")?;
    let options = options(matches)?;
    let regions = matches.get_str("regions");
    Ok(Request::Serve {
        keep,
        regions,
        options,
    })
}

/// What the subcommand of a name asks for that runs a script.
fn request_for<'a>(
    name: &str,
    file: &'a str,
    names_heap: Option<u64>,
    keep: Option<u64>,
    told: Telling<'a>,
    options: Options,
) -> Request<'a>
    ensures { Runs (is_live name.now) file.now names_heap keep (told_of told.entry) options result }
{
    if name == "live" {
        Request::Live {
            file,
            keep,
            told,
            options,
        }
    } else {
        Request::Sim {
            file,
            names_heap,
            options,
        }
    }
}
