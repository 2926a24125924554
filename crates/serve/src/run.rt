//! Serves a new cell.

ghost use Rattle.std.specs.Prelude.{◌≡◌, ◌+◌, ◌++◌, ◌∷◌, [], ◌<◌, IfOk, IfErr, OnOk, length, replicate, true};
ghost use Rattle.std.specs.Option.{option_copied};
ghost use Rattle.cell_journal.specs.WholeHistories.{whole_of};
ghost use Rattle.cell_run.specs.Cells.{IsCellOf, IsNewCell};
ghost use Rattle.script.specs.ScriptFaults.{IsOfWrite};
ghost use Rattle.cell_looks.specs.RunFaults.{IsOfRun};
ghost use Rattle.serve.specs.Messages.{HaveAsked, IsOfReading, IsUnused};
ghost use Rattle.serve.specs.Outcomes.{ServesWith, StopsWith};
ghost use Rattle.serve.specs.Printing.{AllBegin, AllPrinted, AreAllDone, AreAllPrinted, AreComparable, AreInOrder, AreNew, MeetsEach, PrintsOn};

use crate::printing::{PrintedAnswers, print_all};
use crate::reading::{LineFaults, Receivers};
use crate::served_client::ServedClient;
use crate::served_messages::{Asked, AskedCall, Serving, Told};
use cell_journal::Retention;
use cell_looks::ending::end;
use cell_looks::printing::print_regions;
use cell_run::cell::{Cell, Seat, StartFault};
use cell_seats::gate::OpenGate;
use cell_seats::journal::Journal;
use cell_seats::shared_state::MOST_CLIENTS;
use crossbeam_channel::{Receiver, Sender, bounded};
use gfs_types::ghost_list::GhostList;
use gfs_types::ids::ClientId;
use gfs_types::path::Path;
use script::options::Options;
use script::script_fault::ScriptFault;
use std::alloc::Global;
use std::io::{Read, Write};
use std::marker::{Brand, PhantomData};
use std::sync::Wait;
use std::thread;
use std::thread::{JoinHandle, Threads};
use std::time::Clock;

/// How many calls of a client wait for it at most, and how many answers for being printed: the reader waits for those before it takes more lines.
const MOST_WAITING: usize = 1_024;

/// Takes lines as they come, has each client's calls made in order on a thread of its own, and prints each answer when it comes. At the end of
/// input it ends, after the last answer. Of the cell's journal these entries stay. Where a path is given, a line for each chunk of its file is printed
/// behind all answers, with the chunk's regions at the end.
///
/// - `Start`: a setting or a count of nodes is out of its range, no thread or no clock was to be had, or a path is given and clocks were not kept.
/// - `NoMemory`: memory was refused outside the cell's own steps; or a path is given that names a file with a chunk, and entries were let go.
/// - `Read`, `Write`: the reader or the writer failed. What was asked before the reader failed is answered and printed.
pub fn run_serve<
    T: Threads + Wait + Clock + Copy + Send + 'static,
    R: Read + Send + Drop + 'static,
    W: Write,
    F: LineFaults + Send + Drop + 'static,
>(
    rt: T,
    alloc: Global,
    options: &Options,
    retention: Retention,
    path: Option<&Path>,
    reader: R,
    writer: &mut W,
    faults: F,
) -> Result<(), ScriptFault>
    ensures serves { OnOk result (ServesWith options.now (option_copied path.entry) (R.remaining reader) (W.contents writer.old) (W.contents writer.new)) }
    ensures stops { IfErr result (StopsWith options.now (option_copied path.entry) (R.remaining reader) (W.contents writer.old) (W.contents writer.new)) }
{
    let cell = start(rt, alloc, options, retention)?;
    serve::<Brand, T, R, W, F>(rt, cell, alloc, options, path, reader, writer, faults)
}

// A new cell of these options, which have a client at least.
fn start<T: Threads + Wait + Clock + Copy + Send + 'static>(
    rt: T,
    alloc: Global,
    options: &Options,
    retention: Retention,
) -> Result<Cell, ScriptFault>
    ensures some { OnOk result (0 < options.now.clients) }
    ensures cell { IfOk result (λ cell. IsNewCell options.now.config options.now.servers retention cell) }
    ensures fault { IfErr result IsOfRun }
{
    if options.clients == 0 || options.clients > MOST_CLIENTS {
        return Err(ScriptFault::Start);
    }
    let Ok(servers) = u16::try_from(options.servers) else {
        return Err(ScriptFault::Start);
    };
    match Cell::start_retaining(rt, alloc, options.config, servers, retention, OpenGate) {
        Ok(cell) => Ok(cell),
        Err(StartFault::NoMemory) => Err(ScriptFault::NoMemory),
        Err(_) => Err(ScriptFault::Start),
    }
}

// Serves a new cell.
fn serve<
    S: Serving + Send + 'static,
    T: Threads + Wait + Clock + Copy + Send + 'static,
    R: Read + Send + Drop + 'static,
    W: Write,
    F: LineFaults + Send + Drop + 'static,
>(
    rt: T,
    cell: Cell,
    alloc: Global,
    options: &Options,
    path: Option<&Path>,
    reader: R,
    writer: &mut W,
    faults: F,
) -> Result<(), ScriptFault>
    requires input { R.remaining reader ≡ S.of.input }
    requires clients { options.now.clients ≡ S.of.clients }
    requires some { 0 < options.now.clients }
    requires cell { cell.of ≡ S.of.cell }
    requires new { IsCellOf options.now.config options.now.servers cell.of }
    requires made { cell.made ≡ 0 }
    ensures serves { OnOk result (ServesWith options.now (option_copied path.entry) (R.remaining reader) (W.contents writer.old) (W.contents writer.new)) }
    ensures stops { IfErr result (StopsWith options.now (option_copied path.entry) (R.remaining reader) (W.contents writer.old) (W.contents writer.new)) }
{
    let mut cell = cell;
    let Ok((told, heard)) = bounded(alloc, MOST_WAITING) else {
        return Err(ScriptFault::NoMemory);
    };
    let clients = start_clients::<S, T>(rt, alloc, &mut cell, options.clients, &told)?;
    let Clients {
        calls,
        threads,
        printed,
    } = clients;
    let asked = zeros(alloc, options.clients)?;
    let receivers = Receivers {
        servers: options.servers,
        calls,
        asked,
        told,
    };
    let reading = start_reading(rt, alloc, receivers, reader, faults)?;
    let mut printed = printed;
    print_told(&rt, &heard, &mut cell, &mut printed, writer)?;
    let taken = reading.join(&rt);
    join_all(&rt, threads);
    meet_all(printed.as_slice());
    let ended = end(&rt, alloc, cell, path)?;
    agree_all(printed.as_slice(), &ended.journal);
    outcome_of(taken, printed.as_slice())?;
    print_regions(ended.regions.as_slice(), writer)
}

// So many zeros.
fn zeros(alloc: Global, count: u64) -> Result<Vec<u64>, ScriptFault>
    ensures zeros { IfOk result (λ v. v.items ≡ replicate count 0) }
    ensures fault { IfErr result IsOfRun }
{
    let mut all = Vec::new(alloc);
    for _made in 0..count {
        push(&mut all, 0)?;
    }
    Ok(all)
}

fn push<X: Drop>(all: &mut Vec<X>, one: X) -> Result<(), ScriptFault>
    ensures pushed { OnOk result (all.new.items ≡ all.old.items ++ one ∷ []) }
    ensures fault { IfErr result IsOfRun }
{
    match all.push(one) {
        Ok(()) => Ok(()),
        Err(_) => Err(ScriptFault::NoMemory),
    }
}

/// The clients' threads, their calls on their way to them, and what was printed of each.
#[derive(Drop)]
struct Clients<S: Serving> {
    calls: Vec<Sender<AskedCall<S>>>,
    threads: Vec<JoinHandle<()>>,
    printed: Vec<PrintedAnswers<S>>,
}

// Starts the cell's first clients, each on a thread of its own.
fn start_clients<S: Serving + Send + 'static, T: Threads + Wait + Clock + Copy + Send + 'static>(
    rt: T,
    alloc: Global,
    cell: &mut Cell,
    count: u64,
    told: &Sender<Told<S>>,
) -> Result<Clients<S>, ScriptFault>
    requires cell { cell.old.of ≡ S.of.cell }
    requires made { cell.old.made ≡ 0 }
    ensures cell { OnOk result (cell.new.of ≡ cell.old.of) }
    ensures count { IfOk result (λ c. length c.printed.items ≡ count) }
    ensures order { IfOk result (λ c. AreInOrder c.printed.items) }
    ensures new { IfOk result (λ c. AreNew c.printed.items) }
    ensures fault { IfErr result IsOfRun }
{
    let mut all = Clients {
        calls: Vec::new(alloc),
        threads: Vec::new(alloc),
        printed: Vec::new(alloc),
    };
    for before in 0..count {
        let client = start_client(rt, alloc, cell, before + 1, told)?;
        all.add(client)?;
    }
    Ok(all)
}

impl<S: Serving> Clients<S> {
    // One client more.
    fn add(&mut self, client: Client<S>) -> Result<(), ScriptFault>
        ensures printed { OnOk result (self.new.printed.items ≡ self.old.printed.items ++ client.printed ∷ []) }
        ensures fault { IfErr result IsOfRun }
    {
        let Client {
            calls,
            thread,
            printed,
        } = client;
        push(&mut self.calls, calls)?;
        push(&mut self.threads, thread)?;
        push(&mut self.printed, printed)?;
        Ok(())
    }
}

/// A client's thread, its calls on their way to it, and what was printed of it.
#[derive(Drop)]
struct Client<S: Serving> {
    calls: Sender<AskedCall<S>>,
    thread: JoinHandle<()>,
    printed: PrintedAnswers<S>,
}

// Starts the cell's next client on a thread of its own.
fn start_client<S: Serving + Send + 'static, T: Threads + Wait + Clock + Copy + Send + 'static>(
    rt: T,
    alloc: Global,
    cell: &mut Cell,
    number: u64,
    told: &Sender<Told<S>>,
) -> Result<Client<S>, ScriptFault>
    requires cell { cell.old.of ≡ S.of.cell }
    requires number { number ≡ cell.old.made + 1 }
    ensures cell { cell.new.of ≡ cell.old.of }
    ensures made { OnOk result (cell.new.made ≡ number) }
    ensures client { IfOk result (λ c. c.printed.client ≡ number) }
    ensures new { IfOk result (λ c. c.printed.answers ≡ []) }
    ensures fault { IfErr result IsOfRun }
{
    let Ok(seat) = cell.client() else {
        return Err(ScriptFault::NoMemory);
    };
    let (client, printed) = new_client::<S>(ClientId(number), seat);
    let Ok(told) = told.clone() else {
        return Err(ScriptFault::NoMemory);
    };
    let Ok((calls, inbox)) = bounded(alloc, MOST_WAITING) else {
        return Err(ScriptFault::NoMemory);
    };
    let job = move || answer_on(&rt, client, &inbox, &told);
    let Ok(thread) = thread::spawn(&rt, job) else {
        return Err(ScriptFault::Start);
    };
    Ok(Client {
        calls,
        thread,
        printed,
    })
}

// A client that made no call yet, and of which nothing was printed.
fn new_client<S: Serving>(id: ClientId, seat: Seat) -> (ServedClient<S>, PrintedAnswers<S>)
    requires { IsUnused S.of id.0 seat }
    ensures client { result.1.client ≡ id.0 }
    ensures new { result.1.answers ≡ [] }
{
    seat.seen();
    let printed = PrintedAnswers {
        client: id,
        count: 0,
        is_lost: false,
        seen: seat.view().again(),
        answers: GhostList::new(),
        of: PhantomData,
    };
    let client = ServedClient {
        id,
        seat,
        made: 0,
        of: PhantomData,
    };
    (client, printed)
}

// What a client's thread does.
fn answer_on<S: Serving, R: Wait + Clock>(
    rt: &R,
    client: ServedClient<S>,
    inbox: &Receiver<AskedCall<S>>,
    told: &Sender<Told<S>>,
) {
    let mut client = client;
    client.answer_all(rt, inbox, told);
}

// Starts the thread that takes the lines.
fn start_reading<
    S: Serving + Send + 'static,
    T: Threads + Wait + Copy + Send + 'static,
    R: Read + Send + Drop + 'static,
    F: LineFaults + Send + Drop + 'static,
>(
    rt: T,
    alloc: Global,
    receivers: Receivers<S>,
    reader: R,
    faults: F,
) -> Result<JoinHandle<Asked<S>>, ScriptFault>
    requires input { R.remaining reader ≡ S.of.input }
    requires asked { HaveAsked S.of S.of.input S.of.input receivers.asked.items }
    ensures { IfErr result IsOfRun }
{
    let job = move || -> Asked<S>
        requires { (R.remaining reader ≡ S.of.input) × HaveAsked S.of S.of.input S.of.input receivers.asked.items }
    { read_on(&rt, alloc, receivers, reader, &faults) };
    match thread::spawn(&rt, job) {
        Ok(thread) => Ok(thread),
        Err(_) => Err(ScriptFault::Start),
    }
}

// What that thread does. Behind its end no more calls come, and nothing but answers is told.
fn read_on<S: Serving, T: Wait, R: Read + Drop, F: LineFaults>(
    rt: &T,
    alloc: Global,
    receivers: Receivers<S>,
    reader: R,
    faults: &F,
) -> Asked<S>
    requires input { R.remaining reader ≡ S.of.input }
    requires asked { HaveAsked S.of S.of.input S.of.input receivers.asked.items }
{
    let mut receivers = receivers;
    let mut reader = reader;
    let outcome = receivers.read_all(rt, alloc, &mut reader, faults);
    let Receivers { asked, .. } = receivers;
    Asked {
        asked,
        outcome,
        of: PhantomData,
    }
}

// Prints what is told, until nobody tells more.
fn print_told<S: Serving, T: Wait, W: Write>(
    rt: &T,
    heard: &Receiver<Told<S>>,
    cell: &mut Cell,
    printed: &mut Vec<PrintedAnswers<S>>,
    writer: &mut W,
) -> Result<(), ScriptFault>
    requires { AreInOrder printed.old.items }
    ensures cell { cell.new.of ≡ cell.old.of }
    ensures printed { OnOk result (PrintsOn printed.old.items printed.new.items (W.contents writer.old) (W.contents writer.new)) }
    ensures fault { IfErr result IsOfWrite }
{
    print_all(rt, heard, cell, printed.as_mut_slice(), writer)
}

// Waits until they have ended.
fn join_all<T: Threads>(rt: &T, threads: Vec<JoinHandle<()>>) {
    for thread in threads {
        thread.join(rt);
    }
}

// What the clients saw are beginnings of one history, and what was printed of each are its first answers.
fn meet_all<S: Serving>(printed: &[PrintedAnswers<S>])
    ensures printed { AllPrinted S.of printed.now }
    ensures meet { AreComparable printed.now }
{
    for before in 0..printed.len() {
        printed[before].count();
        meet_each(printed, before);
    }
}

// What one of them saw, and what each of them saw.
fn meet_each<S: Serving>(printed: &[PrintedAnswers<S>], one: usize)
    requires { one < length printed.now }
    ensures { MeetsEach printed.now one }
{
    for before in 0..printed.len() {
        printed[one].meet(&printed[before]);
    }
}

// What was seen of each client begins the whole history of the cell, which was closed.
fn agree_all<S: Serving>(printed: &[PrintedAnswers<S>], journal: &Journal)
    requires cell { journal.now.now.cell ≡ S.of.cell }
    requires over { journal.now.now.is_over ≡ true }
    ensures { AllBegin (whole_of journal.now.now) printed.now }
{
    for before in 0..printed.len() {
        printed[before].agree(journal);
    }
}

// What the lines came to, if all that they asked for was printed.
fn outcome_of<S: Serving>(taken: Asked<S>, printed: &[PrintedAnswers<S>]) -> Result<(), ScriptFault>
    ensures done { OnOk result (AreAllDone S.of printed.now) }
    ensures fault { IfErr result IsOfReading }
{
    let Asked {
        asked,
        outcome,
        of: _,
    } = taken;
    if !are_all_printed(asked.as_slice(), printed) {
        return Err(ScriptFault::NoMemory);
    }
    outcome
}

// Whether each call that was asked was answered, and its answer printed.
fn are_all_printed<S: Serving>(asked: &[u64], printed: &[PrintedAnswers<S>]) -> bool
    ensures { result ≡ true → AreAllPrinted asked.now printed.now }
{
    if asked.len() != printed.len() {
        return false;
    }
    for before in 0..asked.len() {
        if asked[before] != printed[before].count() {
            return false;
        }
    }
    true
}
