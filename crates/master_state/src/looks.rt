//! What a look at the names is answered (section 4.1).

ghost use Rattle.std.specs.Prelude.{◌≡◌, IfOk};
ghost use Rattle.gfs_types.specs.declared.call.Call.TheVariants as call;
ghost use Rattle.gfs_types.specs.declared.config.Config.{Config};
ghost use Rattle.gfs_types.specs.declared.answer.Answer.TheVariants as answer;
ghost use Rattle.messages.specs.declared.message.NameReply.TheVariants.{Answered};
ghost use Rattle.relaxed_file.specs.NameStep.{outcome_by};
ghost use Rattle.protocol.specs.MasterNames.{reply_by};
ghost use Rattle.master_state.specs.Refusals.{refusal_by};

use crate::refusals::parsed;
use crate::state::State;
use gfs_types::answer::Answer;
use gfs_types::lists::Text;
use gfs_types::no_memory::NoMemory;
use gfs_types::refusal::Refusal;
use messages::message::NameReply;
use namespace::name_kind::NameKind;
use std::alloc::Allocator;

impl<A: Allocator + Clone> State<A> {
    /// The reply to an Open: the file with its shape, or the refusal. It is told whether a pending snapshot holds a lock that conflicts.
    pub fn open(&self, path: &Text, is_busy: bool) -> Result<NameReply, NoMemory>
        ensures { IfOk result (λ r. (config : Config) → r ≡ reply_by self.now.table (outcome_by self.now.names (call.Open path.now) (refusal_by config self.now.names is_busy (call.Open path.now)))) }
    {
        let path = match parsed(self.alloc, path)? {
            Some(path) => path,
            None => return Ok(refused(Refusal::BadPath)),
        };
        if is_busy {
            return Ok(refused(Refusal::Busy));
        }
        Ok(match self.names.get(&path) {
            None => refused(Refusal::NotFound),
            Some(node) => match node.kind() {
                NameKind::Dir => refused(Refusal::NotFile),
                NameKind::File(id) => NameReply::Opened(id, self.table.shape(id)),
            },
        })
    }
}

fn refused(refusal: Refusal) -> NameReply
    ensures { result ≡ Answered (answer.Refused refusal) }
{
    NameReply::Answered(Answer::Refused(refusal))
}
