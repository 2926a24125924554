//! A client of a script, which makes its calls one after another.

ghost use Rattle.std.specs.Prelude.{◌≡◌, ◌∷◌, [], replicate, OnOk};
ghost use Rattle.cell_looks.specs.ClientAnswers.{calls_on};
ghost use Rattle.live.specs.Playing.{IsSamePlayer, PlaysOn, Plays};

use cell_run::cell::Seat;
use gfs_types::answer::Answer;
use gfs_types::call::Call;
use gfs_types::ids::ClientId;
use gfs_types::no_memory::NoMemory;
use script::live_lines::LiveLine;
use std::alloc::Global;
use std::sync::Wait;
use std::time::Clock;

/// A client, what it was answered so far, and whether it makes no more calls for want of memory.
#[derive(Drop)]
pub struct Player {
    pub id: ClientId,
    pub seat: Seat,
    pub answers: Vec<Answer>,
    pub lacked_memory: bool,
}

impl Player {
    /// Makes its own calls of these lines. What the cell itself refuses is an answer too.
    pub fn play<R: Wait + Clock>(&mut self, rt: &R, alloc: Global, lines: &[LiveLine])
        ensures { Plays lines.now self.old self.new }
    {
        for before in 0..lines.len() {
            self.try_line(rt, alloc, &lines[before]);
        }
    }

    // Makes its own calls of a line, where it did not lack memory before.
    fn try_line<R: Wait + Clock>(&mut self, rt: &R, alloc: Global, line: &LiveLine)
        ensures { Plays (line.now ∷ []) self.old self.new }
    {
        if !self.lacked_memory {
            self.lacked_memory = self.play_line(rt, alloc, line).is_err();
        }
    }

    fn play_line<R: Wait + Clock>(
        &mut self,
        rt: &R,
        alloc: Global,
        line: &LiveLine,
    ) -> Result<(), NoMemory>
        ensures same { IsSamePlayer self.old self.new }
        ensures played { OnOk result (PlaysOn self.old self.new (calls_on self.old.id.0 line.now)) }
    {
        let LiveLine::Calls { times, asked } = line else {
            return Ok(());
        };
        if asked.client.0 != self.id.0 {
            return Ok(());
        }
        self.repeat(rt, alloc, *times, &asked.call)
    }

    // Makes a call so many times.
    #[tactic(auto, using(crate::proofs::Players::plays_none, crate::proofs::Players::made_again, crate::proofs::Players::still_same))]
    fn repeat<R: Wait + Clock>(
        &mut self,
        rt: &R,
        alloc: Global,
        times: u64,
        call: &Call,
    ) -> Result<(), NoMemory>
        ensures same { IsSamePlayer self.old self.new }
        ensures played { OnOk result (PlaysOn self.old self.new (replicate times call.now)) }
    {
        let mut made = 0;
        while made < times {
            self.make(rt, call.copy(alloc)?)?;
            made += 1;
        }
        Ok(())
    }

    // Makes a call, and keeps its answer.
    fn make<R: Wait + Clock>(&mut self, rt: &R, call: Call) -> Result<(), NoMemory>
        ensures same { IsSamePlayer self.old self.new }
        ensures played { OnOk result (PlaysOn self.old self.new (call ∷ [])) }
    {
        let answer = match self.seat.call(rt, call) {
            Ok(answer) => answer,
            Err(refusal) => Answer::Refused(refusal),
        };
        self.answers.push(answer)?;
        Ok(())
    }
}
