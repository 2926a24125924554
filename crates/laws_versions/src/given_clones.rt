//! Laws of every lawful list of events from a new cell: restarts, stops in a step, losses, repeats, refused memory and rot.

ghost use Rattle.laws_versions.specs.GivenClones.{CopiedVersionsWereGiven, OrderedVersionsWereGiven};

/// Each version that a Clone, a CopyAsk or an Image names was given to a server by an order.
pub fn copied_versions_were_given()
    ensures { CopiedVersionsWereGiven }
{}

/// So was each version that a server was ordered to have, by an order that gives it or by a Clone.
pub fn ordered_versions_were_given()
    ensures { OrderedVersionsWereGiven }
{}
