//! Copies of messages and events, written out: of a derived `clone` each field is proved as a call that may fail, a number too, with
//! what is let go where it does.

ghost use Rattle.std.specs.Prelude.{◌≡◌};

use crate::event::Event;
use crate::message::{Body, Group, Location, Message, NameReply};
use std::alloc::AllocError;

impl Clone for NameReply {
    ghost is_clone = { λ x y. y ≡ x };

    fn clone(&self) -> Result<NameReply, AllocError> {
        match self {
            NameReply::Opened(file, shape) => Ok(NameReply::Opened(*file, *shape)),
            NameReply::Answered(answer) => Ok(NameReply::Answered(answer.clone()?)),
        }
    }
}

impl Clone for Group {
    ghost is_clone = { λ x y. y ≡ x };

    fn clone(&self) -> Result<Group, AllocError> {
        Ok(Group {
            primary: self.primary,
            members: self.members.clone()?,
        })
    }
}

impl Clone for Location {
    ghost is_clone = { λ x y. y ≡ x };

    fn clone(&self) -> Result<Location, AllocError> {
        Ok(Location {
            index: self.index,
            handle: self.handle,
            round: self.round,
            shape: self.shape,
            holders: self.holders.clone()?,
            group: self.group.clone()?,
        })
    }
}

impl Clone for Body {
    ghost is_clone = { λ x y. y ≡ x };

    fn clone(&self) -> Result<Body, AllocError> {
        match self {
            Body::Name {
                call_number,
                deadline,
                call,
            } => Ok(Body::Name {
                call_number: *call_number,
                deadline: *deadline,
                call: call.clone()?,
            }),
            Body::Look { call_number, call } => Ok(Body::Look {
                call_number: *call_number,
                call: call.clone()?,
            }),
            Body::Ask {
                number,
                file,
                wanted,
                deadline,
                lost_lease,
            } => Ok(Body::Ask {
                number: *number,
                file: *file,
                wanted: *wanted,
                deadline: *deadline,
                lost_lease: *lost_lease,
            }),
            Body::Named { call_number, reply } => Ok(Body::Named {
                call_number: *call_number,
                reply: reply.clone()?,
            }),
            Body::Told { number, location } => Ok(Body::Told {
                number: *number,
                location: location.clone()?,
            }),
            Body::Wait { number } => Ok(Body::Wait { number: *number }),
            Body::Refused { number, refusal } => Ok(Body::Refused {
                number: *number,
                refusal: *refusal,
            }),
            Body::Push { data, bytes, rest } => Ok(Body::Push {
                data: *data,
                bytes: bytes.clone()?,
                rest: rest.clone()?,
            }),
            Body::Pushed { data } => Ok(Body::Pushed { data: *data }),
            Body::Mutate {
                data,
                handle,
                version,
                target,
                deadline,
            } => Ok(Body::Mutate {
                data: *data,
                handle: *handle,
                version: *version,
                target: *target,
                deadline: *deadline,
            }),
            Body::Done { data, place } => Ok(Body::Done {
                data: *data,
                place: *place,
            }),
            Body::Read {
                number,
                handle,
                version,
                offset,
                count,
            } => Ok(Body::Read {
                number: *number,
                handle: *handle,
                version: *version,
                offset: *offset,
                count: *count,
            }),
            Body::Len {
                number,
                handle,
                version,
            } => Ok(Body::Len {
                number: *number,
                handle: *handle,
                version: *version,
            }),
            Body::Bytes { number, bytes } => Ok(Body::Bytes {
                number: *number,
                bytes: bytes.clone()?,
            }),
            Body::LenIs { number, count } => Ok(Body::LenIs {
                number: *number,
                count: *count,
            }),
            Body::Forward {
                handle,
                version,
                serial,
                data,
                chunk,
                change,
            } => Ok(Body::Forward {
                handle: *handle,
                version: *version,
                serial: *serial,
                data: *data,
                chunk: *chunk,
                change: *change,
            }),
            Body::Acked {
                handle,
                version,
                serial,
            } => Ok(Body::Acked {
                handle: *handle,
                version: *version,
                serial: *serial,
            }),
            Body::Nacked {
                handle,
                version,
                serial,
                refusal,
            } => Ok(Body::Nacked {
                handle: *handle,
                version: *version,
                serial: *serial,
                refusal: *refusal,
            }),
            Body::Create {
                order,
                handle,
                version,
            } => Ok(Body::Create {
                order: *order,
                handle: *handle,
                version: *version,
            }),
            Body::SetVersion {
                order,
                handle,
                version,
                base,
            } => Ok(Body::SetVersion {
                order: *order,
                handle: *handle,
                version: *version,
                base: *base,
            }),
            Body::Grant {
                order,
                handle,
                version,
                end,
                chunk,
                members,
            } => Ok(Body::Grant {
                order: *order,
                handle: *handle,
                version: *version,
                end: *end,
                chunk: *chunk,
                members: members.clone()?,
            }),
            Body::Revoke {
                order,
                handle,
                version,
            } => Ok(Body::Revoke {
                order: *order,
                handle: *handle,
                version: *version,
            }),
            Body::Drop {
                order,
                handle,
                version,
            } => Ok(Body::Drop {
                order: *order,
                handle: *handle,
                version: *version,
            }),
            Body::Clone {
                order,
                handle,
                version,
                source,
            } => Ok(Body::Clone {
                order: *order,
                handle: *handle,
                version: *version,
                source: *source,
            }),
            Body::CopyLocal {
                order,
                handle,
                version,
                copy,
                copy_version,
            } => Ok(Body::CopyLocal {
                order: *order,
                handle: *handle,
                version: *version,
                copy: *copy,
                copy_version: *copy_version,
            }),
            Body::Extend {
                handle,
                version,
                end,
            } => Ok(Body::Extend {
                handle: *handle,
                version: *version,
                end: *end,
            }),
            Body::Recorded { handle, version } => Ok(Body::Recorded {
                handle: *handle,
                version: *version,
            }),
            Body::Revoked { handle, version } => Ok(Body::Revoked {
                handle: *handle,
                version: *version,
            }),
            Body::Cloned { handle, version } => Ok(Body::Cloned {
                handle: *handle,
                version: *version,
            }),
            Body::Report { replicas, leases } => Ok(Body::Report {
                replicas: replicas.clone()?,
                leases: leases.clone()?,
            }),
            Body::CopyAsk { handle, version } => Ok(Body::CopyAsk {
                handle: *handle,
                version: *version,
            }),
            Body::Image {
                handle,
                version,
                serial,
                bytes,
            } => Ok(Body::Image {
                handle: *handle,
                version: *version,
                serial: *serial,
                bytes: bytes.clone()?,
            }),
        }
    }
}

impl Clone for Message {
    ghost is_clone = { λ x y. y ≡ x };

    fn clone(&self) -> Result<Message, AllocError> {
        Ok(Message {
            number: self.number,
            sender: self.sender,
            receiver: self.receiver,
            body: self.body.clone()?,
        })
    }
}

impl Clone for Event {
    ghost is_clone = { λ x y. y ≡ x };

    fn clone(&self) -> Result<Event, AllocError> {
        match self {
            Event::Call { client, call, now } => Ok(Event::Call {
                client: *client,
                call: call.clone()?,
                now: *now,
            }),
            Event::Deliver { number, now } => Ok(Event::Deliver {
                number: *number,
                now: *now,
            }),
            Event::Tick { node, now } => Ok(Event::Tick {
                node: *node,
                now: *now,
            }),
            Event::Restart { node, now } => Ok(Event::Restart {
                node: *node,
                now: *now,
            }),
            Event::Rot {
                server,
                handle,
                place,
                byte,
            } => Ok(Event::Rot {
                server: *server,
                handle: *handle,
                place: *place,
                byte: *byte,
            }),
            Event::Fuse { node, calls, torn } => Ok(Event::Fuse {
                node: *node,
                calls: *calls,
                torn: *torn,
            }),
        }
    }
}
