//! How far a list is known that a journal was taken from.

ghost use Rattle.std.specs.Prelude.{◌≡◌, true, false};
ghost use Rattle.cell_journal.specs.ListEnds.{Agrees, ending};

use crate::list_beginning::{Beginning, WholeList, agree, meet};
use crate::raised_entry::RaisedEntry;
use std::marker::Model;

/// The list up to the end of a journal, which is the whole list where its cell was closed.
#[derive(Drop)]
pub struct ListEnd {
    list: Beginning<RaisedEntry>,
    whole: Option<WholeList<RaisedEntry>>,
}

impl Model for ListEnd {
    ghost use Rattle.std.specs.Prelude.{◌≡◌, IfSome, is_some};
    ghost use Rattle.cell_journal.specs.ListEnds.{Ending, ending};

    ghost Value = { Ending };

    ghost view = { λ e. ending e.list (is_some e.whole) };

    ghost invariant = { λ e. IfSome e.whole (λ w. w ≡ e.list) };
}

impl ListEnd {
    /// The end of a list to which nothing is added any more.
    pub fn over(whole: WholeList<RaisedEntry>) -> ListEnd
        ensures { result ≡ ending whole true }
    {
        ListEnd {
            list: whole.beginning(),
            whole: Some(whole),
        }
    }

    /// The end of a journal behind which the list may go on.
    pub fn parked(list: Beginning<RaisedEntry>) -> ListEnd
        ensures { result ≡ ending list false }
    {
        ListEnd { list, whole: None }
    }

    /// What somebody saw of the same list agrees with it.
    #[tactic(auto, using(crate::proofs::ListEnds::over_agrees, crate::proofs::ListEnds::parked_agrees))]
    pub fn agrees(&self, beginning: &Beginning<RaisedEntry>)
        requires { beginning.now.name ≡ self.now.name }
        ensures { Agrees beginning.now.items self.now.items self.now.is_over }
    {
        match &self.whole {
            Some(whole) => agree(beginning, whole),
            None => {
                meet(beginning, &self.list);
                meet(&self.list, beginning);
            }
        }
    }
}
