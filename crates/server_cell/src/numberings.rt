//! What is left of what was seen where a stop came before the end of a step.

ghost use Rattle.std.specs.Prelude.{◌≡◌, filter};
ghost use Rattle.protocol.specs.Seen.{is_numbering};

use protocol::seen::{Seen, SeenList};

// Takes no memory.
pub(crate) fn numberings(seen: SeenList) -> SeenList
    ensures { result ≡ filter is_numbering seen }
{
    let mut all = seen.into_vec();
    keep_numberings(&mut all);
    SeenList::new(all)
}

fn keep_numberings(seen: &mut Vec<Seen>)
    ensures { seen.new.items ≡ filter is_numbering seen.old.items }
{
    seen.retain(|one| is_numbering(one));
}

fn is_numbering(seen: &Seen) -> bool
    ensures { result ≡ is_numbering seen.now }
{
    matches!(seen, Seen::Numbered { .. })
}
