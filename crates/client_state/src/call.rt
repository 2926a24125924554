//! A client's open call.

ghost use Rattle.std.specs.Prelude.{◌≡◌};

use crate::gathered::Gathered;
use gfs_types::answer::Answer;
use gfs_types::call::Call;
use gfs_types::ids::{FileId, Handle, Moment, ServerId, Version};
use gfs_types::lists::{RoundList, Sequence};
use messages::message_lists::HolderList;

/// An attempt that its primary refused for want of a lease or a replica: it may still be placed at that index under that
/// version, up to that moment.
#[derive(Clone, Copy)]
pub struct LiveAttempt {
    pub index: u64,
    pub version: Version,
    pub until: Moment,
}

/// What an attempt keeps of a location.
#[derive(Clone, Copy)]
pub struct ToldChunk {
    pub index: u64,
    pub handle: Handle,
    /// The granted version that was told.
    pub round: Version,
}

/// How far a call has come.
#[derive(Drop)]
pub enum Stage {
    /// A name call's request is out.
    AskedNames,
    /// The master was asked for a chunk, by an ask of this number.
    AskedWhere(u64),
    /// It is to ask again.
    MustAskAgain,
    /// The data of this number were sent to the members of this primary.
    SentData {
        chunk: ToldChunk,
        primary: ServerId,
        number: u64,
    },
    /// The primary was asked to place them.
    SentMutate {
        chunk: ToldChunk,
        number: u64,
    },
    /// A server was asked to read, by an ask of this number; these are left.
    SentRead {
        chunk: ToldChunk,
        left: HolderList,
        number: u64,
    },
    /// The attempt has ended.
    IsOver,
    /// What completed the call, which is answered once none of its attempts is live.
    HasAnswer(Answer),
}

/// A call that has no answer yet.
pub struct CurrentCall {
    /// The number of a name call.
    pub number: u64,
    pub asked: Call,
    /// The file of its descriptor; 0 for a name call.
    pub file: FileId,
    /// The part's chunk; of an append the index below which it doesn't look.
    pub index: u64,
    /// Of an append's first attempt the last chunk that it knows of.
    pub last_chunk: Option<u64>,
    /// The attempts that the part has left, of which each is counted down as it ends.
    pub left: u32,
    /// The deadline of the last attempt that was begun.
    pub deadline: Moment,
    /// When the client was told the location by which the attempt goes.
    pub told: Moment,
    pub stage: Stage,
    /// Whether the primary answered the attempt before that it has no lease or no replica.
    pub lost_lease: bool,
    /// Whether the master's last answer named no holder.
    pub saw_no_holder: bool,
    /// Whether the attempt found no server that answers a read.
    pub is_nobody_serving: bool,
    pub live: Sequence<LiveAttempt>,
    /// What a read has read so far.
    pub bytes: Gathered,
    pub rounds: RoundList,
}

// Stands here, once, so that no function that lets one go, here or above, takes its fields apart.
impl Drop for CurrentCall {
    fn drop(self) {
        let Self {
            number: _,
            asked: _asked,
            file: _,
            index: _,
            last_chunk: _,
            left: _,
            deadline: _,
            told: _,
            stage: _stage,
            lost_lease: _,
            saw_no_holder: _,
            is_nobody_serving: _,
            live: _live,
            bytes: _bytes,
            rounds: _rounds,
        } = self;
    }
}

impl CurrentCall {
    /// What a read has read so far, and the rounds of it.
    pub fn into_read(self) -> (Gathered, RoundList)
        ensures { (result.0 ≡ self.bytes) × (result.1 ≡ self.rounds) }
    {
        let Self {
            number: _,
            asked: _asked,
            file: _,
            index: _,
            last_chunk: _,
            left: _,
            deadline: _,
            told: _,
            stage: _stage,
            lost_lease: _,
            saw_no_holder: _,
            is_nobody_serving: _,
            live: _live,
            bytes,
            rounds,
        } = self;
        (bytes, rounds)
    }
}
