//! A script's cell is parked and goes on.

ghost use Rattle.std.specs.Prelude.{◌≡◌, ℕ, ◌≤◌, [], IfOk, IfErr, IsSome, Some, All, length, slice_get, map, vec_capacity};
ghost use Rattle.cell_run.specs.Parked.{IsParked};
ghost use Rattle.cell_looks.specs.RunFaults.{IsOfRun};
ghost use Rattle.live.specs.Playing.{AllReopen, IsReopened, rest_of, seated};

use crate::play::Player;
use cell_run::cell::{Cell, Seat};
use cell_run::park_fault::ParkFault;
use cell_run::parked::Parked;
use cell_seats::gate::OpenGate;
use gfs_types::answer::Answer;
use gfs_types::ids::ClientId;
use gfs_types::no_memory::NoMemory;
use script::script_fault::ScriptFault;
use std::alloc::Global;
use std::sync::Wait;
use std::thread::Threads;
use std::time::Clock;

/// A client without its seat.
#[derive(Drop)]
pub struct Unseated {
    pub id: ClientId,
    pub answers: Vec<Answer>,
    pub lacked_memory: bool,
}

/// What the clients are while their seats are handed in: what they have beside their seats, these, and room to join them again.
#[derive(Drop)]
struct HandedIn {
    rests: Vec<Unseated>,
    seats: Vec<Seat>,
    room: Vec<Player>,
}

/// The cell is parked with the seats of all clients, and goes on. Where a fault comes it is closed, or stays parked.
pub fn reopen<T: Threads + Wait + Clock + Copy + Send + 'static>(
    rt: T,
    alloc: Global,
    cell: Cell,
    players: Vec<Player>,
) -> Result<(Cell, Vec<Player>), ScriptFault>
    requires { (k : ℕ) (p : Player) → slice_get players.items k ≡ Some p → p.seat.cell ≡ cell.of }
    ensures cell { IfOk result (λ r. IsReopened cell.of r.0.of) }
    ensures players { IfOk result (λ r. AllReopen r.0.of players.items r.1.items) }
    ensures fault { IfErr result IsOfRun }
{
    let Ok(handed) = hand_in(alloc, players) else {
        cell.close(&rt);
        return Err(ScriptFault::NoMemory);
    };
    let HandedIn { rests, seats, room } = handed;
    let parked = park(&rt, cell, seats)?;
    match parked.resume(rt, OpenGate) {
        Ok((cell, seats)) => Ok((cell, join(rests, seats, room))),
        Err(_) => Err(ScriptFault::Start),
    }
}

// Parks the cell, whose clients all came out of their seats.
fn park<T: Threads + Wait + Clock>(
    rt: &T,
    cell: Cell,
    seats: Vec<Seat>,
) -> Result<Parked, ScriptFault>
    requires { All (λ s. s.cell.name ≡ cell.of.name) seats.items }
    ensures parked { IfOk result (λ p. IsParked cell.of cell.made seats.items p) }
    ensures clients { IfOk result (λ p. All (λ s. IsSome s.saw) p.seats) }
    ensures fault { IfErr result IsOfRun }
{
    match cell.park(rt, seats) {
        Ok(parked) => {
            if parked.has_all_clients() {
                Ok(parked)
            } else {
                Err(ScriptFault::Start)
            }
        }
        Err(ParkFault::NoMemory(cell, _)) => {
            cell.close(rt);
            Err(ScriptFault::Start)
        }
        Err(ParkFault::Clock(_, _)) => Err(ScriptFault::Start),
    }
}

// Takes the clients and their seats apart.
fn hand_in(alloc: Global, players: Vec<Player>) -> Result<HandedIn, NoMemory>
    ensures rests { IfOk result (λ h. h.rests.items ≡ map rest_of players.items) }
    ensures seats { IfOk result (λ h. h.seats.items ≡ map (λ p. p.seat) players.items) }
    ensures room { IfOk result (λ h. (h.room.items ≡ []) × (length players.items ≤ vec_capacity h.room)) }
{
    let mut handed = HandedIn {
        rests: Vec::new(alloc),
        seats: Vec::new(alloc),
        room: Vec::new(alloc),
    };
    handed.room.reserve(players.len())?;
    for player in players {
        let Player {
            id,
            seat,
            answers,
            lacked_memory,
        } = player;
        handed.seats.push(seat)?;
        handed.rests.push(Unseated {
            id,
            answers,
            lacked_memory,
        })?;
    }
    Ok(handed)
}

// Each client at the seat of its place.
fn join(rests: Vec<Unseated>, seats: Vec<Seat>, room: Vec<Player>) -> Vec<Player>
    requires none { room.items ≡ [] }
    requires count { length seats.items ≡ length rests.items }
    requires room { length rests.items ≤ vec_capacity room }
    ensures { result.items ≡ seated rests.items seats.items }
{
    let mut players = room;
    let mut left = seats.into_iter();
    for rest in rests {
        let Some(seat) = left.next() else {
            unreachable!()
        };
        let Unseated {
            id,
            answers,
            lacked_memory,
        } = rest;
        players.push_reserved(Player {
            id,
            seat,
            answers,
            lacked_memory,
        });
    }
    players
}
