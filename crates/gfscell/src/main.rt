//! `gfscell`: a Google File System cell that runs scripts, on threads too, and serves programs through a pipe.
#![tactic(auto)]

ghost use Rattle.std.specs.Prelude.{◌≡◌, Some};
ghost use Rattle.std.specs.Process.{exit_status};
ghost use Rattle.gfscell.specs.Faults.{fault_text};
ghost use Rattle.gfscell.specs.Status.{status_of};
ghost use Rattle.gfscell.specs.declared.ProgramFault.TheVariants as faults;

use cell_looks::{HistoryFault, print_history};
use cell_run::{Progress, Retention, Watcher};
use cell_seats::journal::Journal;
use command_line::command::{CommandFault, Request, Telling, parse};
use command_line::narrowed::narrowed;
use gfs_types::path::Path;
use live::run::run_live;
use script::fault::LineFault;
use script::options::Options;
use script::script_fault::ScriptFault;
use script::words::read_full_path;
use serve::reading::LineFaults;
use serve::run::run_serve;
use shell::run::{run_script, run_script_in_region};
use std::alloc::Global;
use std::error::Error;
use std::fs::File;
use std::io::{self, BufReader, BufWriter, ErrorKind, Read, Write};
use std::process::ExitCode;
use std::sync::Wait;
use std::thread::Threads;
use std::time::Clock;
use std::{env, fmt};

/// Why the program fails.
#[derive(Debug, Drop)]
enum ProgramFault {
    Command(CommandFault),
    Script(ScriptFault),
}

impl fmt::Display for ProgramFault {
    ghost output = { λ fault. Some (fault_text fault) };

    fn fmt<W: fmt::Write>(&self, f: &mut fmt::Formatter<W>) -> fmt::Result {
        match self {
            ProgramFault::Command(fault) => write!(f, "{fault}"),
            ProgramFault::Script(fault) => write!(f, "{fault}"),
        }
    }
}

impl Error for ProgramFault {}

impl ProgramFault {
    fn exit_code(&self) -> ExitCode
        ensures { exit_status result ≡ status_of self.now }
    {
        match self {
            ProgramFault::Command(CommandFault::Bad) => ExitCode::from(2),
            ProgramFault::Command(CommandFault::NoMemory) | ProgramFault::Script(_) => {
                ExitCode::from(1)
            }
        }
    }
}

impl From<CommandFault> for ProgramFault {
    ghost from_gives = { λ cause fault. fault ≡ faults.Command cause };

    fn from(fault: CommandFault) -> ProgramFault {
        ProgramFault::Command(fault)
    }
}

impl From<ScriptFault> for ProgramFault {
    ghost from_gives = { λ cause fault. fault ≡ faults.Script cause };

    fn from(fault: ScriptFault) -> ProgramFault {
        ProgramFault::Script(fault)
    }
}

/// Runs the script that a source gives by the simulator, with the names in a region of so many bytes, where it is given.
fn simulate<S: Read + Drop>(
    rt: &HostRuntime,
    names_heap: Option<u64>,
    options: &Options,
    source: S,
) -> Result<(), ScriptFault> {
    let alloc = rt.alloc();
    let mut reader = BufReader::new(alloc, source).map_err(|e| ScriptFault::of_read(&e))?;
    let mut writer = BufWriter::new(alloc, io::writer(rt)).map_err(|e| ScriptFault::of_write(&e))?;
    match names_heap {
        Some(bytes) => run_script_in_region(alloc, bytes, options, &mut reader, &mut writer),
        None => run_script(alloc, options, &mut reader, &mut writer),
    }
}

/// Tells on standard error how far a running cell is.
#[derive(Drop)]
struct ErrorWatcher {
    rt: HostRuntime,
}

impl Watcher for ErrorWatcher {
    fn tell(&self, progress: Progress) {
        let Progress {
            answered,
            events,
            room,
            lost,
        } = progress;
        // Nothing can tell of a standard error that can't be written.
        let _ = eprintln!(self.rt;
            "gfscell: {answered} calls answered, {events} events, room for {room}"
        );
        if lost > 0 {
            let _ = eprintln!(self.rt; "gfscell: {lost} messages lost");
        }
    }
}

/// Which entries of the journal stay: the last so many, 1 to 2^32 - 1, or all where no number is given.
fn retention_of(keep: Option<u64>) -> Retention {
    match keep {
        Some(most) => Retention::Last(narrowed(most)),
        None => Retention::Whole,
    }
}

/// The path of the file whose regions are wanted.
fn path_of(alloc: Global, word: Option<&str>) -> Result<Option<Path>, CommandFault> {
    let Some(word) = word else {
        return Ok(None);
    };
    match read_full_path(alloc, word.as_bytes()) {
        Ok(path) => Ok(Some(path)),
        Err(LineFault::Bad) => Err(CommandFault::Bad),
        Err(LineFault::NoMemory) => Err(CommandFault::NoMemory),
    }
}

/// Writes all calls and answers of a journal into the file of this name.
fn write_history(rt: &HostRuntime, journal: &Journal, name: &str) -> Result<(), ScriptFault> {
    let alloc = rt.alloc();
    let file = File::create(rt, name).map_err(|e| ScriptFault::of_write(&e))?;
    let mut writer = BufWriter::new(alloc, file).map_err(|e| ScriptFault::of_write(&e))?;
    match print_history(alloc, journal, &mut writer) {
        Ok(()) => writer.flush().map_err(|e| ScriptFault::of_write(&e)),
        Err(HistoryFault::Write) => Err(ScriptFault::Write),
        Err(_) => Err(ScriptFault::NoMemory),
    }
}

/// Runs the script that a source gives on a cell with threads, and tells of it what is wanted.
fn play<T: Threads + Wait + Clock + Copy + Send + Sync + 'static, S: Read + Drop>(
    threads: T,
    rt: &HostRuntime,
    keep: Option<u64>,
    told: Telling<'_>,
    path: Option<&Path>,
    options: &Options,
    source: S,
) -> Result<(), ScriptFault> {
    let alloc = rt.alloc();
    let mut reader = BufReader::new(alloc, source).map_err(|e| ScriptFault::of_read(&e))?;
    let mut writer = BufWriter::new(alloc, io::writer(rt)).map_err(|e| ScriptFault::of_write(&e))?;
    let watcher = if told.progress {
        Some(ErrorWatcher { rt: *rt })
    } else {
        None
    };
    let journal = run_live(
        threads,
        alloc,
        options,
        retention_of(keep),
        path,
        watcher,
        &mut reader,
        &mut writer,
    )?;
    match told.history {
        Some(name) => write_history(rt, &journal, name),
        None => Ok(()),
    }
}

/// The same of a file's script, where `-` is standard input. Of a journal whose entries go nothing can be told at the end.
fn play_file<T: Threads + Wait + Clock + Copy + Send + Sync + 'static>(
    threads: T,
    rt: &HostRuntime,
    file: &str,
    keep: Option<u64>,
    told: Telling<'_>,
    options: &Options,
) -> Result<(), ProgramFault> {
    if keep.is_some() && (told.regions.is_some() || told.history.is_some()) {
        return Err(ProgramFault::Command(CommandFault::Bad));
    }
    let path = path_of(rt.alloc(), told.regions)?;
    if file == "-" {
        play(threads, rt, keep, told, path.as_ref(), options, rt.reader())?;
        return Ok(());
    }
    let script = File::open(rt, file).map_err(|e| ScriptFault::of_read(&e))?;
    play(threads, rt, keep, told, path.as_ref(), options, script)?;
    Ok(())
}

/// Tells of each bad line on standard error.
#[derive(Drop)]
struct ErrorFaults {
    rt: HostRuntime,
}

impl LineFaults for ErrorFaults {
    fn tell(&self, fault: ScriptFault) {
        // Nothing can tell of a standard error that can't be written.
        let _ = eprintln!(self.rt; "gfscell: {fault}");
    }
}

/// Serves a cell with threads: its lines come from standard input. Where a path is given the regions of its file are told at the end, which those of a
/// journal whose entries go can't be.
fn serve<T: Threads + Wait + Clock + Copy + Send + 'static>(
    threads: T,
    rt: &HostRuntime,
    keep: Option<u64>,
    regions: Option<&str>,
    options: &Options,
) -> Result<(), ProgramFault> {
    if keep.is_some() && regions.is_some() {
        return Err(ProgramFault::Command(CommandFault::Bad));
    }
    let alloc = rt.alloc();
    let path = path_of(alloc, regions)?;
    let reader = BufReader::new(alloc, rt.stdin()).map_err(|e| ScriptFault::of_read(&e))?;
    let mut writer = BufWriter::new(alloc, io::writer(rt)).map_err(|e| ScriptFault::of_write(&e))?;
    let faults = ErrorFaults { rt: *rt };
    run_serve(
        threads,
        alloc,
        options,
        retention_of(keep),
        path.as_ref(),
        reader,
        &mut writer,
        faults,
    )?;
    Ok(())
}

/// The words of the command line. Words that are no text are a bad command line.
fn words(rt: &HostRuntime) -> Result<Vec<String>, CommandFault> {
    match env::args(rt) {
        Ok(words) => Ok(words.collect(rt.alloc())?),
        Err(error) if error.kind() == ErrorKind::OutOfMemory => Err(CommandFault::NoMemory),
        Err(_) => Err(CommandFault::Bad),
    }
}

fn run<T: Threads + Wait + Clock + Copy + Send + Sync + 'static>(
    threads: T,
    rt: &HostRuntime,
) -> Result<(), ProgramFault> {
    let alloc = rt.alloc();
    let words = words(rt)?;
    match parse(alloc, words.as_slice())? {
        Request::Show(text) => rt
            .print(text.as_str())
            .map_err(|e| ScriptFault::of_write(&e))?,
        Request::Sim {
            file: "-",
            names_heap,
            options,
        } => simulate(rt, names_heap, &options, rt.reader())?,
        Request::Sim {
            file,
            names_heap,
            options,
        } => {
            let script = File::open(rt, file).map_err(|e| ScriptFault::of_read(&e))?;
            simulate(rt, names_heap, &options, script)?;
        }
        Request::Live {
            file,
            keep,
            told,
            options,
        } => play_file(threads, rt, file, keep, told, &options)?,
        Request::Serve {
            keep,
            regions,
            options,
        } => serve(threads, rt, keep, regions, &options)?,
    }
    Ok(())
}

fn main(rt: HostRuntime) -> ExitCode {
    match run(rt, &rt) {
        Ok(()) => ExitCode::SUCCESS,
        Err(fault) => {
            // Nothing can tell of a standard error that can't be written.
            let _ = eprintln!(rt; "gfscell: {fault}");
            fault.exit_code()
        }
    }
}
