//! Laws of the versions that servers say they have and that the master keeps of them, in every lawful list of events from a new cell: restarts, stops in a step, losses, repeats, refused memory and rot.

ghost use Rattle.laws_versions.specs.KnownVersions.{KnownVersionsRefuseTheirOrder, SaidVersionsRefuseTheirOrder};

/// A server that said that it has a version, by a Recorded, a Cloned or a line of a Report, refuses each order that gives it that version.
pub fn said_versions_refuse_their_order()
    ensures { SaidVersionsRefuseTheirOrder }
{}

/// So does each server of which a master that is up keeps that version.
pub fn known_versions_refuse_their_order()
    ensures { KnownVersionsRefuseTheirOrder }
{}
