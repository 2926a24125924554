//! Lists of events.

ghost use Rattle.std.specs.Prelude.{◌≡◌, IfOk, OnErr};
ghost use Rattle.cell_world.specs.Runs.{Runs};

use crate::answers::Answers;
use crate::cell::CellState;
use crate::fault::RunFault;
use crate::master::StoppableMaster;
use gfs_types::answer::Answer;
use gfs_types::no_memory::NoMemory;
use messages::event::Event;
use std::alloc::Global;
use std::collections::VecDeque;

impl<M: StoppableMaster> CellState<M> {
    /// The events in order, and their answers.
    pub fn run(&mut self, alloc: Global, events: &[Event]) -> Result<Vec<Answer>, RunFault>
        ensures ok { IfOk result (λ answers. Runs self.old events.now answers.items self.new) }
        ensures err { OnErr result (self.new ≡ self.old) }
    {
        let mut left = copies(alloc, events)?;
        let mut answers = Answers::with_room(alloc, left.len())?;
        while let Some(event) = left.pop_front() {
            answers.add(self.step(event));
        }
        Ok(answers.into_vec())
    }
}

fn copies(alloc: Global, events: &[Event]) -> Result<VecDeque<Event>, NoMemory>
    ensures { IfOk result (λ left. left.items ≡ events.now) }
{
    let mut left = VecDeque::new(alloc);
    for event in events {
        left.push_back(event.clone()?)?;
    }
    Ok(left)
}
