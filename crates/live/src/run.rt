//! Runs a script on a running cell.

ghost use Rattle.std.specs.Prelude.{ℕ, ◌≡◌, ◌+◌, ◌≤◌, ◌<◌, IfOk, IfErr, IfSome, Some, length, slice_get, map, true, false};
ghost use Rattle.cell_journal.specs.WholeHistories.{whole_of};
ghost use Rattle.cell_run.specs.Cells.{IsNewCell};
ghost use Rattle.std.specs.Option.{option_copied};
ghost use Rattle.cell_looks.specs.EndedWorlds.{AreRegionsOf};
ghost use Rattle.live.specs.Live.{IsScript, HasSeenPart, AreAnswersIn, PrintsWith, Stops};
ghost use Rattle.cell_looks.specs.RunFaults.{IsOfRun};
ghost use Rattle.live.specs.Playing.{IsNewPlayer, IsPlayed, IsReopened, Plays, AllPlay, AllReopen, Each};
ghost use Rattle.script.specs.LiveLines.{is_barrier, is_reopen};

use crate::play::Player;
use crate::printing::print_all;
use crate::reopen::reopen;
use cell_journal::Retention;
use cell_looks::ending::{Ended, end};
use cell_looks::printing::print_regions;
use cell_run::cell::{Cell, StartFault};
use cell_run::watch::{Watch, Watcher};
use cell_seats::gate::OpenGate;
use cell_seats::journal::{Journal, agree};
use gfs_types::ids::ClientId;
use gfs_types::no_memory::NoMemory;
use gfs_types::path::Path;
use script::live_lines::LiveLine;
use script::options::Options;
use script::plan::read_script;
use script::script_fault::ScriptFault;
use std::alloc::Global;
use std::io::{Read, Write};
use std::sync::Wait;
use std::thread;
use std::thread::Threads;
use std::time::Clock;

/// The clients that a cell may have.
const MOST_CLIENTS: u64 = 64;

/// Runs a script on a new cell of whose journal these entries stay, each client's calls in order on a thread of its own, and prints all answers at the
/// end, by client. Each line is looked at as it comes, and all of them before the cell is made: behind a bad one nothing is read. Where a path is given, a
/// line for each chunk of its file is printed behind all answers, with the chunk's regions at the end. A watcher, if there is one, is told once a second
/// how far the cell is, until all calls were answered; without memory or a thread for it the script runs all the same. Gives the cell's journal.
///
/// - `Line`: a line isn't in the language, or names a client that the cell doesn't have.
/// - `Start`: a setting or a count of nodes is out of its range, no thread or no clock was to be had, the cell could not be parked or resumed at a line
///   `reopen`, or a path is given and clocks were not kept.
/// - `NoMemory`: memory was refused outside the cell's own steps, and not in parking or resuming it; or a path is given that names a file with a chunk, and
///   entries were let go.
/// - `Read`, `Write`: the reader or the writer failed.
pub fn run_live<
    T: Threads + Wait + Clock + Copy + Send + Sync + 'static,
    P: Watcher + Send + Drop + 'static,
    R: Read,
    W: Write,
>(
    rt: T,
    alloc: Global,
    options: &Options,
    retention: Retention,
    path: Option<&Path>,
    watcher: Option<P>,
    reader: &mut R,
    writer: &mut W,
) -> Result<Journal, ScriptFault>
    ensures script { IfOk result (λ _. IfSome (R.remaining reader.old) (IsScript options.now.clients)) }
    ensures prints { IfOk result (λ journal. PrintsWith options.now (option_copied path.entry) journal.now (R.remaining reader.old) (W.contents writer.old) (W.contents writer.new)) }
    ensures stops { IfErr result (Stops options.now.clients (R.remaining reader.old) (W.contents writer.old) (W.contents writer.new)) }
{
    let lines = read_script(alloc, options.clients, reader)?;
    let played = play_on_new(
        rt,
        alloc,
        options,
        retention,
        path,
        lines.as_slice(),
        watcher,
    )?;
    let Played { players, ended } = played;
    let Ended { journal, regions } = ended;
    print_all(players.as_slice(), writer)?;
    print_regions(regions.as_slice(), writer)?;
    Ok(journal)
}

/// The clients of a cell that ended, and what is left of it.
#[derive(Drop)]
struct Played {
    players: Vec<Player>,
    ended: Ended,
}

// The clients of a new cell once all lines were played and the cell was closed.
fn play_on_new<
    T: Threads + Wait + Clock + Copy + Send + Sync + 'static,
    P: Watcher + Send + Drop + 'static,
>(
    rt: T,
    alloc: Global,
    options: &Options,
    retention: Retention,
    path: Option<&Path>,
    lines: &[LiveLine],
    watcher: Option<P>,
) -> Result<Played, ScriptFault>
    ensures answers { IfOk result (λ p. AreAnswersIn options.now lines.now p.ended.journal.now (map (λ q. q.answers.items) p.players.items)) }
    ensures regions { IfOk result (λ p. AreRegionsOf (option_copied path.entry) p.ended.journal.now (map (λ v. v.items) p.ended.regions.items)) }
    ensures fault { IfErr result IsOfRun }
{
    if options.clients == 0 || options.clients > MOST_CLIENTS {
        return Err(ScriptFault::Start);
    }
    let cell = start(rt, alloc, options, retention)?;
    let (cell, players) = play_in(rt, alloc, cell, options.clients, lines, watcher)?;
    let ended = end(&rt, alloc, cell, path)?;
    agree_all(players.as_slice(), &ended.journal);
    Ok(Played { players, ended })
}

// The thread that tells the watcher, if there is one.
fn start_watch<
    T: Threads + Wait + Clock + Copy + Send + 'static,
    P: Watcher + Send + Drop + 'static,
>(rt: T, cell: &Cell, watcher: Option<P>) -> Option<Watch<P>> {
    match watcher {
        Some(watcher) => cell.watch(rt, watcher),
        None => None,
    }
}

fn stop_watch<P: Watcher + Send + Drop + 'static>(
    rt: &impl Threads,
    watch: Option<Watch<P>>,
) -> Option<P> {
    match watch {
        Some(watch) => Some(watch.stop(rt)),
        None => None,
    }
}

// What each client saw begins the cell's history.
fn agree_all(players: &[Player], journal: &Journal)
    requires cell { (k : ℕ) (p : Player) → slice_get players.now k ≡ Some p → p.seat.cell ≡ journal.now.now.cell }
    requires over { journal.now.now.is_over ≡ true }
    ensures { (k : ℕ) (p : Player) → slice_get players.now k ≡ Some p → HasSeenPart (whole_of journal.now.now) p.seat }
{
    for before in 0..players.len() {
        agree_one(&players[before], journal);
    }
}

// What a client saw begins the cell's history.
fn agree_one(player: &Player, journal: &Journal)
    requires cell { player.now.seat.cell ≡ journal.now.now.cell }
    requires over { journal.now.now.is_over ≡ true }
    ensures { HasSeenPart (whole_of journal.now.now) player.now.seat }
{
    agree(&player.seat, journal);
    player.seat.seen();
}

// The cell and its clients once all lines were played, if none was refused memory. A fault ends the cell.
fn play_in<
    T: Threads + Wait + Clock + Copy + Send + Sync + 'static,
    P: Watcher + Send + Drop + 'static,
>(
    rt: T,
    alloc: Global,
    cell: Cell,
    clients: u64,
    lines: &[LiveLine],
    watcher: Option<P>,
) -> Result<(Cell, Vec<Player>), ScriptFault>
    requires { cell.made ≡ 0 }
    ensures cell { IfOk result (λ r. IsReopened cell.of r.0.of) }
    ensures count { IfOk result (λ r. length r.1.items ≡ clients) }
    ensures players { IfOk result (λ r. Each (IsPlayed r.0.of lines.now) r.1.items) }
    ensures lacked { IfOk result (λ r. (k : ℕ) (p : Player) → slice_get r.1.items k ≡ Some p → p.lacked_memory ≡ false) }
    ensures fault { IfErr result IsOfRun }
{
    let mut cell = cell;
    let Ok(players) = new_players(alloc, &mut cell, clients) else {
        cell.close(&rt);
        return Err(ScriptFault::NoMemory);
    };
    let (cell, players) = play_all(rt, alloc, lines, cell, players, watcher)?;
    if lack_memory(players.as_slice()) {
        cell.close(&rt);
        return Err(ScriptFault::NoMemory);
    }
    Ok((cell, players))
}

// Whether one of them made not all its calls.
fn lack_memory(players: &[Player]) -> bool
    ensures { result ≡ false → (k : ℕ) (p : Player) → slice_get players.now k ≡ Some p → p.lacked_memory ≡ false }
{
    for before in 0..players.len() {
        if players[before].lacked_memory {
            return true;
        }
    }
    false
}

fn start<T: Threads + Wait + Clock + Copy + Send + 'static>(
    rt: T,
    alloc: Global,
    options: &Options,
    retention: Retention,
) -> Result<Cell, ScriptFault>
    ensures cell { IfOk result (λ cell. IsNewCell options.now.config options.now.servers retention cell) }
    ensures fault { IfErr result IsOfRun }
{
    let Ok(servers) = u16::try_from(options.servers) else {
        return Err(ScriptFault::Start);
    };
    match Cell::start_retaining(rt, alloc, options.config, servers, retention, OpenGate) {
        Ok(cell) => Ok(cell),
        Err(StartFault::NoMemory) => Err(ScriptFault::NoMemory),
        Err(_) => Err(ScriptFault::Start),
    }
}

// A new cell's first clients.
fn new_players(alloc: Global, cell: &mut Cell, clients: u64) -> Result<Vec<Player>, NoMemory>
    requires { cell.old.made ≡ 0 }
    ensures cell { cell.new.of ≡ cell.old.of }
    ensures count { IfOk result (λ players. length players.items ≡ clients) }
    ensures players { IfOk result (λ players. Each (IsNewPlayer cell.old.of) players.items) }
{
    let mut all = Vec::new(alloc);
    for before in 0..clients {
        let player = new_player(alloc, cell, before + 1)?;
        all.push(player)?;
    }
    Ok(all)
}

// The cell's next client, which made no call yet.
fn new_player(alloc: Global, cell: &mut Cell, number: u64) -> Result<Player, NoMemory>
    requires { number ≡ cell.old.made + 1 }
    ensures cell { cell.new.of ≡ cell.old.of }
    ensures made { IfOk result (λ _. cell.new.made ≡ number) }
    ensures player { IfOk result (IsNewPlayer cell.old.of number) }
{
    let Ok(seat) = cell.client() else {
        return Err(NoMemory);
    };
    Ok(Player {
        id: ClientId(number),
        seat,
        answers: Vec::new(alloc),
        lacked_memory: false,
    })
}

/// A cell, its clients, and what tells a watcher how far it is.
#[derive(Drop)]
struct Running<P: Watcher + Send + Drop + 'static> {
    cell: Cell,
    players: Vec<Player>,
    watch: Option<Watch<P>>,
}

// All clients make their calls up to the next barrier, and are answered; then those up to the one after it. The watcher, if there is one, is told
// meanwhile how far the cell is.
fn play_all<
    T: Threads + Wait + Clock + Copy + Send + Sync + 'static,
    P: Watcher + Send + Drop + 'static,
>(
    rt: T,
    alloc: Global,
    lines: &[LiveLine],
    cell: Cell,
    players: Vec<Player>,
    watcher: Option<P>,
) -> Result<(Cell, Vec<Player>), ScriptFault>
    requires fresh { Each (IsNewPlayer cell.of) players.items }
    ensures cell { IfOk result (λ r. IsReopened cell.of r.0.of) }
    ensures count { IfOk result (λ r. length r.1.items ≡ length players.items) }
    ensures players { IfOk result (λ r. Each (IsPlayed r.0.of lines.now) r.1.items) }
    ensures fault { IfErr result IsOfRun }
{
    let watch = start_watch(rt, &cell, watcher);
    let mut running = Running {
        cell,
        players,
        watch,
    };
    let mut first = 0;
    while first < lines.len() {
        let next = next_barrier(lines, first);
        play_part(&rt, alloc, &lines[first..next], &mut running.players);
        running = pass(rt, alloc, running, is_reopen_at(lines, next))?;
        first = next + 1;
    }
    let Running {
        cell,
        players,
        watch,
    } = running;
    let _watcher = stop_watch(&rt, watch);
    Ok((cell, players))
}

// Whether the cell is parked at this line.
fn is_reopen_at(lines: &[LiveLine], place: usize) -> bool
    ensures { result ≡ true → (line : LiveLine) × (slice_get lines.now place ≡ Some line) × (is_reopen line ≡ true) }
{
    place < lines.len() && lines[place].is_reopen()
}

// Passes a barrier, at which the cell may be parked and go on. Meanwhile no watcher is told.
fn pass<
    T: Threads + Wait + Clock + Copy + Send + Sync + 'static,
    P: Watcher + Send + Drop + 'static,
>(rt: T, alloc: Global, running: Running<P>, is_reopen: bool) -> Result<Running<P>, ScriptFault>
    requires seated { (k : ℕ) (p : Player) → slice_get running.players.items k ≡ Some p → p.seat.cell ≡ running.cell.of }
    ensures stays { is_reopen ≡ false → IfOk result (λ r. (r.cell ≡ running.cell) × (r.players ≡ running.players)) }
    ensures goes { is_reopen ≡ true → IfOk result (λ r. IsReopened running.cell.of r.cell.of × AllReopen r.cell.of running.players.items r.players.items) }
    ensures fault { IfErr result IsOfRun }
{
    if !is_reopen {
        return Ok(running);
    }
    let Running {
        cell,
        players,
        watch,
    } = running;
    let watcher = stop_watch(&rt, watch);
    let (cell, players) = reopen(rt, alloc, cell, players)?;
    let watch = start_watch(rt, &cell, watcher);
    Ok(Running {
        cell,
        players,
        watch,
    })
}

// The place of the first barrier from this place on, or of the end.
fn next_barrier(lines: &[LiveLine], first: usize) -> usize
    requires { first < length lines.now }
    ensures within { (first ≤ result) × (result ≤ length lines.now) }
    ensures barrier { (line : LiveLine) → slice_get lines.now result ≡ Some line → is_barrier line ≡ true }
{
    let mut next = first;
    while next < lines.len() && !lines[next].is_barrier() {
        next += 1;
    }
    next
}

// All clients make their calls of these lines, each on a thread of its own, and are answered.
fn play_part<T: Threads + Wait + Clock + Sync>(
    rt: &T,
    alloc: Global,
    lines: &[LiveLine],
    players: &mut Vec<Player>,
)
    ensures { AllPlay lines.now players.old.items players.new.items }
{
    play_on_threads(rt, alloc, lines, players.as_mut_slice());
}

fn play_on_threads<T: Threads + Wait + Clock + Sync>(
    rt: &T,
    alloc: Global,
    lines: &[LiveLine],
    players: &mut [Player],
)
    ensures { AllPlay lines.now players.old players.new }
{
    let threads = players.len().max(1);
    thread::for_each_mut(
        rt,
        players,
        threads,
        &|_: usize, player: &mut Player|
            ensures { Plays lines.entry.now player.entry.now player.exit.now }
        { player.play(rt, alloc, lines) },
    );
}
