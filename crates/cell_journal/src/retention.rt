//! Which rows of a journal stay.

ghost use Rattle.std.specs.Prelude.{◌≡◌, ◌≤◌, ◌^◌};
ghost use Rattle.cell_journal.specs.Retained.{gone_of, most_entries, stays_of};

/// How many entries a journal may have of which only the last stay.
const MOST_ENTRIES: u64 = 1 << 62;

/// Which rows of a journal stay, once there are more: all of them, or the last so many, and one at least.
#[derive(Clone, Copy, Debug, PartialEq, Eq)]
pub enum Retention {
    Whole,
    Last(u32),
}

impl Retention {
    /// Of so many rows, how many of the first are let go.
    pub fn gone_of(self, count: usize) -> usize
        ensures { result ≡ gone_of self count }
    {
        match self {
            Self::Whole => 0,
            Self::Last(most) => count.saturating_sub((most as usize).max(1)),
        }
    }

    /// How many entries there may be, where the settings allow so many of a journal that stays whole.
    pub fn most_entries(self, journal: u64) -> u64
        requires { journal ≤ 2 ^ 62 }
        ensures most { result ≡ most_entries self journal }
        ensures within { result ≤ 2 ^ 62 }
    {
        match self {
            Self::Whole => journal,
            Self::Last(_) => MOST_ENTRIES,
        }
    }

    /// How many stay.
    pub fn stays_of(self, count: usize) -> usize
        ensures { result ≡ stays_of self count }
    {
        count - self.gone_of(count)
    }
}
