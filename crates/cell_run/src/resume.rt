//! A parked cell goes on: its nodes begin again, behind all that it did. All that may fail comes before any node is touched.

ghost use Rattle.std.specs.Prelude.{◌≡◌, ◌≤◌, ◌<◌, ◌+◌, true, false, IfOk, IfErr, OnOk};
ghost use Rattle.cell_run.specs.Parked.{IsResumed};
ghost use Rattle.running_nodes.specs.ParkedSeats.{count_anew};
ghost use Rattle.cell_run.specs.Resumed.{StandsBehind};
ghost use Rattle.cell_run.specs.Starts.{IsOfMachine, IsResumeFault};

use crate::behind::{Behind, begin};
use crate::cell::Cell;
use crate::parked::{Parked, ParkedParts};
use crate::resume_room::ThreadRoom;
use crate::start_fault::StartFault;
use cell_seats::gate::Gate;
use cell_seats::shared_state::MOST_CLIENTS;
use running_nodes::running_client::Seat;
use std::sync::Wait;
use std::thread::Threads;
use std::time::{Clock, Duration};

impl Parked {
    /// Starts the cell's nodes again, each of which begins with what its log or store holds, or is down if it can't, and gives the seats that were handed
    /// in. A seat keeps its number and its descriptors; one with a call that was made and not answered goes on as a client of a new number, without descriptors,
    /// and so does one that an earlier parking left behind. A fault leaves the parked cell as it was. There is no policy of the network.
    ///
    /// - `Clock`: there is no clock, or it went back by more than the clock bound, or behind the cell's beginning.
    /// - `Count`: too few numbers of clients are left.
    /// - `NoMemory`, `Thread`: no memory or no thread was to be had.
    pub fn resume<
        R: Threads + Wait + Clock + Copy + Send + 'static,
        G: Gate + Clone + Send + Drop + 'static,
    >(self, rt: R, gate: G) -> Result<(Cell, Vec<Seat>), (Parked, StartFault)>
        ensures resumed { IfOk result (λ r. IsResumed self r.0 r.1.items) }
        ensures fault { IfErr result (λ f. f.0 ≡ self) }
        ensures why { IfErr result (λ f. IsResumeFault self f.1) }
    {
        match self.parts.may_resume(&rt) {
            Ok(()) => go_behind(rt, self, gate),
            Err(fault) => Err((self, fault)),
        }
    }
}

// The same, where the clock went on and there are numbers.
fn go_behind<
    R: Threads + Wait + Clock + Copy + Send + 'static,
    G: Gate + Clone + Send + Drop + 'static,
>(rt: R, parked: Parked, gate: G) -> Result<(Cell, Vec<Seat>), (Parked, StartFault)>
    requires few { parked.made + count_anew parked.seats ≤ 64 }
    ensures resumed { IfOk result (λ r. IsResumed parked r.0 r.1.items) }
    ensures fault { IfErr result (λ f. f.0 ≡ parked) }
    ensures why { IfErr result (λ f. IsOfMachine f.1) }
{
    match begin(&rt, parked) {
        Ok((behind, threads)) => go_on_threads(rt, behind, threads, gate),
        Err(refused) => Err(refused),
    }
}

// The same, once all that a cell needs is there but its threads.
fn go_on_threads<
    R: Threads + Wait + Clock + Copy + Send + 'static,
    G: Gate + Clone + Send + Drop + 'static,
>(
    rt: R,
    behind: Behind,
    room: ThreadRoom,
    gate: G,
) -> Result<(Cell, Vec<Seat>), (Parked, StartFault)>
    requires stands { StandsBehind behind.parts behind.registry behind.room behind.retired }
    ensures resumed { IfOk result (λ r. IsResumed behind.parts r.0 r.1.items) }
    ensures fault { IfErr result (λ f. f.0 ≡ behind.parts) }
    ensures why { IfErr result (λ f. IsOfMachine f.1) }
{
    let mut room = room;
    match behind.start_threads(rt, &mut room, gate) {
        Ok(ticker) => {
            let ThreadRoom {
                master: _master,
                servers: _servers,
                threads,
            } = room;
            Ok(behind.go_on(&rt, ticker, threads))
        }
        Err(fault) => Err((behind.give_back(&rt), fault)),
    }
}

impl ParkedParts {
    // Whether the clock went on, and there are numbers for all clients that need a new one.
    fn may_resume<R: Clock>(&self, rt: &R) -> Result<(), StartFault>
        ensures few { OnOk result (self.now.made + count_anew self.now.seats ≤ 64) }
        ensures why { IfErr result (IsResumeFault self.now) }
    {
        let Some(now) = moment(rt, self.began) else {
            return Err(StartFault::Clock);
        };
        if now.saturating_add(u64::from(self.config.skew_ms)) < self.greatest {
            return Err(StartFault::Clock);
        }
        if !are_few(self.made, self.count_anew()) {
            return Err(StartFault::Count);
        }
        Ok(())
    }
}

// How many milliseconds a cell has run, if there is a clock.
fn moment<R: Clock>(rt: &R, began: Duration) -> Option<u64> {
    let since = rt.monotonic().ok()?.checked_sub(began)?;
    u64::try_from(since.as_millis()).ok()
}

// Whether so many clients more may be made.
fn are_few(made: u64, anew: u64) -> bool
    ensures few { result ≡ true → made + anew ≤ 64 }
    ensures many { result ≡ false → 64 < made + anew }
{
    made <= MOST_CLIENTS && anew <= MOST_CLIENTS && made + anew <= MOST_CLIENTS
}
