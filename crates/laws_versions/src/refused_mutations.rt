//! A law of each step of a server: restarts, stops in a step, losses, repeats, refused memory and rot.

ghost use Rattle.laws_versions.specs.RefusedMutations.{NackedMutationsWereForwarded};

/// A server sends a Nacked only as it takes a Forward of that version and serial, for a cause that its replica or its data give.
pub fn nacked_mutations_were_forwarded()
    ensures { NackedMutationsWereForwarded }
{}
