//! The clocks of a list of steps.

ghost use Rattle.std.specs.Prelude.{◌≡◌};
ghost use Rattle.cell_journal.specs.Clocks.{moved};

/// The greatest moment so far, and whether each was behind the greatest before it by the clock bound at most.
#[derive(Clone, Copy)]
pub struct Clocks {
    pub greatest: u64,
    pub kept: bool,
}

impl Clocks {
    pub fn move_to(&mut self, moment: u64, skew: u64)
        ensures { self.new ≡ moved skew self.old moment }
    {
        self.kept = self.kept && self.greatest.saturating_sub(moment) <= skew;
        self.greatest = self.greatest.max(moment);
    }
}
