//! Answers, with room for as many as may come.

ghost use Rattle.std.specs.Option.{option_to_list};
ghost use Rattle.std.specs.Prelude.{◌≡◌, ◌+◌, ◌<◌, ◌≤◌, [], ◌∷◌, ◌++◌, IfOk};

use gfs_types::answer::Answer;
use gfs_types::no_memory::NoMemory;
use std::alloc::Global;
use std::marker::Model;

#[derive(Drop)]
pub(crate) struct Answers {
    items: Vec<Answer>,
}

impl Model for Answers {
    ghost use Rattle.std.specs.Prelude.{◌-◌, vec_len, vec_capacity};
    ghost use Rattle.cell_world.specs.Runs.{AnswerList};

    ghost Value = { AnswerList };

    ghost view = { λ t. record { items = t.items.items; room = vec_capacity t.items - vec_len t.items } };
}

impl Answers {
    pub(crate) fn with_room(alloc: Global, room: usize) -> Result<Answers, NoMemory>
        ensures items { IfOk result (λ t. t.items ≡ []) }
        ensures room { IfOk result (λ t. room ≤ t.room) }
    {
        Ok(Answers {
            items: Vec::with_capacity(alloc, room)?,
        })
    }

    pub(crate) fn add(&mut self, answer: Option<Answer>)
        requires { 0 < self.old.room }
        ensures items { self.new.items ≡ self.old.items ++ option_to_list answer }
        ensures room { self.old.room ≤ self.new.room + 1 }
    {
        if let Some(answer) = answer {
            self.push(answer);
        }
    }

    fn push(&mut self, answer: Answer)
        requires { 0 < self.old.room }
        ensures items { self.new.items ≡ self.old.items ++ answer ∷ [] }
        ensures room { self.old.room ≤ self.new.room + 1 }
    {
        self.items.push_reserved(answer);
    }

    pub(crate) fn into_vec(self) -> Vec<Answer>
        ensures { result.items ≡ self.items }
    {
        let Answers { items } = self;
        items
    }
}
