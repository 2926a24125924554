//! A seat that was handed in when its cell was parked.

ghost use Rattle.std.specs.Prelude.{◌≡◌, true, IfSome, IsSome, length};
ghost use Rattle.std.specs.Option.{option_map};
ghost use Rattle.cell_seats.specs.ParkedNodes.{IsClientOf};
ghost use Rattle.running_nodes.specs.ParkedSeats.{goes_anew};

use crate::running_client::{RunningClient, Seat};
use cell_seats::parked_node::ParkedNode;
use gfs_types::ids::Node;
use std::marker::Model;
use std::sync::Wait;

/// A seat, and its client, which was taken out of it. An earlier parking to which the seat was not handed in left none.
pub struct ParkedSeat {
    seat: Seat,
    client: Option<ParkedNode<RunningClient>>,
}

// Stands here, once, so that no crate above proves the drops of all that a seat has.
impl Drop for ParkedSeat {
    fn drop(self) {
        let Self {
            seat: _seat,
            client: _client,
        } = self;
    }
}

impl Model for ParkedSeat {
    ghost use Rattle.std.specs.Prelude.{IfSome, length};
    ghost use Rattle.std.specs.Option.{option_map};
    ghost use Rattle.cell_seats.specs.ParkedNodes.{IsClientOf};
    ghost use Rattle.running_nodes.specs.ParkedSeats.{ParkedSeatState, parked_seat};

    ghost Value = { ParkedSeatState };

    ghost view = { λ p. parked_seat p.seat (option_map (λ c. length c.history.items) p.client) };

    ghost invariant = { λ p. IfSome p.client (IsClientOf p.seat) };
}

impl ParkedSeat {
    /// Parks a seat, whose client, if it is there, saw a history of so many entries.
    pub fn of<R: Wait>(rt: &R, seat: Seat, count: usize) -> ParkedSeat
        ensures seat { result.seat ≡ seat }
        ensures saw { IfSome result.saw (λ k. k ≡ count) }
    {
        let mut seat = seat;
        let client = seat.park(rt, Some(count));
        ParkedSeat { seat, client }
    }

    /// The seat itself.
    pub fn into_seat(self) -> Seat
        ensures { result ≡ self.seat }
    {
        let Self {
            seat,
            client: _client,
        } = self;
        seat
    }

    /// Its parts.
    pub fn into_parts(self) -> (Seat, Option<ParkedNode<RunningClient>>)
        ensures seat { result.0 ≡ self.seat }
        ensures saw { self.saw ≡ option_map (λ c. length c.history.items) result.1 }
        ensures client { IfSome result.1 (IsClientOf result.0) }
    {
        let Self { seat, client } = self;
        (seat, client)
    }

    /// Whether its client came out of it.
    pub fn has_client(&self) -> bool
        ensures { result ≡ true → IsSome self.now.saw }
    {
        self.client.is_some()
    }

    /// Whether it goes on as a client of a new number: a call of it waits, or its client is gone.
    pub fn goes_anew(&self) -> bool
        ensures { result ≡ goes_anew self.now }
    {
        match &self.client {
            Some(_) => self.seat.waits(),
            None => true,
        }
    }

    /// The number of its client.
    pub fn number(&self) -> u64 {
        match self.seat.name() {
            Node::Client(id) => id.0,
            _ => 0,
        }
    }
}
