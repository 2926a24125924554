//! A client of a served cell, which makes its calls one after another.

ghost use Rattle.serve.specs.Messages.{IsMade};

use crate::served_messages::{AskedCall, Reply, Serving, Told};
use cell_run::cell::Seat;
use crossbeam_channel::{Receiver, Sender};
use gfs_types::answer::Answer;
use gfs_types::call::Call;
use gfs_types::ids::ClientId;
use std::marker::{Model, PhantomData};
use std::sync::Wait;
use std::time::Clock;

/// A client, and how many calls it made.
#[derive(Drop)]
pub struct ServedClient<S: Serving> {
    pub id: ClientId,
    pub seat: Seat,
    pub made: u64,
    pub of: PhantomData<S>,
}

impl<S: Serving> Model for ServedClient<S> {
    ghost use Rattle.cell_seats.specs.Seats.{SeatState};
    ghost use Rattle.serve.specs.Messages.{IsServed};

    ghost Value = { SeatState };

    ghost view = { λ c. c.seat };

    ghost invariant = { λ c. IsServed S.of c.id.0 c.made c.seat };
}

/// An answer, and whether it is a refusal of the cell itself.
#[derive(Drop)]
struct Made {
    answer: Answer,
    is_lost: bool,
}

impl<S: Serving> ServedClient<S> {
    /// Makes each call that comes, and tells its answer, until no more come or nobody hears of it. What the cell itself refuses is an answer too.
    pub fn answer_all<R: Wait + Clock>(
        &mut self,
        rt: &R,
        calls: &Receiver<AskedCall<S>>,
        told: &Sender<Told<S>>,
    ) {
        for _ in rt.forever() {
            let Ok(asked) = calls.recv(rt) else {
                break;
            };
            let Some(reply) = self.answer(rt, asked) else {
                break;
            };
            if told.send(rt, Told::Answered(reply)).is_err() {
                break;
            }
        }
    }

    // Makes a call, if it is its next one.
    fn answer<R: Wait + Clock>(&mut self, rt: &R, asked: AskedCall<S>) -> Option<Reply<S>> {
        let AskedCall {
            client,
            number,
            call,
            of: _,
        } = asked;
        if client.0 != self.id.0 {
            return None;
        }
        if number != self.made {
            return None;
        }
        if number == u64::MAX {
            return None;
        }
        let Made { answer, is_lost } = make(rt, &mut self.seat, call);
        self.made = number + 1;
        let reply = Reply {
            client,
            number,
            answer,
            is_lost,
            seen: self.seat.view().again(),
            of: PhantomData,
        };
        Some(reply)
    }
}

// Makes a call.
fn make<R: Wait + Clock>(rt: &R, seat: &mut Seat, call: Call) -> Made
    ensures { IsMade seat.old seat.new call result.answer result.is_lost }
{
    match seat.call(rt, call) {
        Ok(answer) => Made {
            answer,
            is_lost: false,
        },
        Err(refusal) => Made {
            answer: Answer::Refused(refusal),
            is_lost: true,
        },
    }
}
