//! The law of the nodes' clocks, in every lawful list of events from a new cell: restarts, stops in a step, losses, repeats, refused memory and rot.

ghost use Rattle.laws_versions.specs.NodeClocks.{NoNodeIsAhead};

/// No node is past the greatest moment that was given to a node.
pub fn no_node_is_ahead()
    ensures { NoNodeIsAhead }
{}
