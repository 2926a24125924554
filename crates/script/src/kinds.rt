//! The kinds of messages, by the names that scripts have for them.

ghost use Rattle.std.specs.Prelude.{◌≡◌};
ghost use Rattle.script.specs.Kinds.{kind_named, kind_of, name_of};

use messages::message::Body;

/// What a message is about, whatever it says.
#[derive(Clone, Copy, Debug, PartialEq, Eq)]
pub enum Kind {
    Name,
    Look,
    Ask,
    Named,
    Told,
    Wait,
    Refused,
    Push,
    Pushed,
    Mutate,
    Done,
    Forward,
    Acked,
    Nacked,
    Read,
    Len,
    Bytes,
    LenIs,
    Create,
    SetVersion,
    Recorded,
    Grant,
    Extend,
    Revoke,
    Revoked,
    Drop,
    Clone,
    CopyAsk,
    Image,
    Cloned,
    CopyLocal,
    Report,
}

/// Each kind.
pub const KINDS: [Kind; 32] = [
    Kind::Name,
    Kind::Look,
    Kind::Ask,
    Kind::Named,
    Kind::Told,
    Kind::Wait,
    Kind::Refused,
    Kind::Push,
    Kind::Pushed,
    Kind::Mutate,
    Kind::Done,
    Kind::Forward,
    Kind::Acked,
    Kind::Nacked,
    Kind::Read,
    Kind::Len,
    Kind::Bytes,
    Kind::LenIs,
    Kind::Create,
    Kind::SetVersion,
    Kind::Recorded,
    Kind::Grant,
    Kind::Extend,
    Kind::Revoke,
    Kind::Revoked,
    Kind::Drop,
    Kind::Clone,
    Kind::CopyAsk,
    Kind::Image,
    Kind::Cloned,
    Kind::CopyLocal,
    Kind::Report,
];

impl Kind {
    /// The kind of a message with this content.
    pub fn of(body: &Body) -> Kind
        ensures { result ≡ kind_of body.now }
    {
        match body {
            Body::Name { .. } => Kind::Name,
            Body::Look { .. } => Kind::Look,
            Body::Ask { .. } => Kind::Ask,
            Body::Named { .. } => Kind::Named,
            Body::Told { .. } => Kind::Told,
            Body::Wait { .. } => Kind::Wait,
            Body::Refused { .. } => Kind::Refused,
            Body::Push { .. } => Kind::Push,
            Body::Pushed { .. } => Kind::Pushed,
            Body::Mutate { .. } => Kind::Mutate,
            Body::Done { .. } => Kind::Done,
            Body::Forward { .. } => Kind::Forward,
            Body::Acked { .. } => Kind::Acked,
            Body::Nacked { .. } => Kind::Nacked,
            Body::Read { .. } => Kind::Read,
            Body::Len { .. } => Kind::Len,
            Body::Bytes { .. } => Kind::Bytes,
            Body::LenIs { .. } => Kind::LenIs,
            Body::Create { .. } => Kind::Create,
            Body::SetVersion { .. } => Kind::SetVersion,
            Body::Recorded { .. } => Kind::Recorded,
            Body::Grant { .. } => Kind::Grant,
            Body::Extend { .. } => Kind::Extend,
            Body::Revoke { .. } => Kind::Revoke,
            Body::Revoked { .. } => Kind::Revoked,
            Body::Drop { .. } => Kind::Drop,
            Body::Clone { .. } => Kind::Clone,
            Body::CopyAsk { .. } => Kind::CopyAsk,
            Body::Image { .. } => Kind::Image,
            Body::Cloned { .. } => Kind::Cloned,
            Body::CopyLocal { .. } => Kind::CopyLocal,
            Body::Report { .. } => Kind::Report,
        }
    }

    /// The name that scripts have for it.
    pub fn name(self) -> &'static str
        ensures { result.now ≡ name_of self }
    {
        match self {
            Kind::Name => "Name",
            Kind::Look => "Look",
            Kind::Ask => "Ask",
            Kind::Named => "Named",
            Kind::Told => "Told",
            Kind::Wait => "Wait",
            Kind::Refused => "Refused",
            Kind::Push => "Push",
            Kind::Pushed => "Pushed",
            Kind::Mutate => "Mutate",
            Kind::Done => "Done",
            Kind::Forward => "Forward",
            Kind::Acked => "Acked",
            Kind::Nacked => "Nacked",
            Kind::Read => "Read",
            Kind::Len => "Len",
            Kind::Bytes => "Bytes",
            Kind::LenIs => "LenIs",
            Kind::Create => "Create",
            Kind::SetVersion => "SetVersion",
            Kind::Recorded => "Recorded",
            Kind::Grant => "Grant",
            Kind::Extend => "Extend",
            Kind::Revoke => "Revoke",
            Kind::Revoked => "Revoked",
            Kind::Drop => "Drop",
            Kind::Clone => "Clone",
            Kind::CopyAsk => "CopyAsk",
            Kind::Image => "Image",
            Kind::Cloned => "Cloned",
            Kind::CopyLocal => "CopyLocal",
            Kind::Report => "Report",
        }
    }
}

/// The kind that a word names.
pub fn kind_named(word: &[u8]) -> Option<Kind>
    ensures { result ≡ kind_named word.now }
{
    KINDS
        .iter()
        .copied()
        .find(|kind| kind.name().as_bytes() == word)
}
