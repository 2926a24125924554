//! Events as words: `7@0` for message 7, which comes at the moment 0.

use messages::event::Event;
use std::io::{self, Write};

/// An event, and a semicolon and a space.
pub fn write_event(text: &mut Vec<u8>, event: &Event) -> io::Result<()> {
    match event {
        Event::Call { client, call, now } => {
            write!(text, "{client:?} calls {call:?}@{}; ", now.0)
        }
        Event::Deliver { number, now } => write!(text, "{number}@{}; ", now.0),
        Event::Tick { node, now } => write!(text, "{node:?} ticks@{}; ", now.0),
        Event::Restart { node, now } => write!(text, "{node:?} restarts@{}; ", now.0),
        Event::Rot {
            server,
            handle,
            place,
            byte,
        } => { write!(text, "{server:?} rots {handle:?} {place} {byte}; ") }
        Event::Fuse { node, calls, torn } => { write!(text, "{node:?} fuses {calls} {torn:?}; ") }
    }
}
