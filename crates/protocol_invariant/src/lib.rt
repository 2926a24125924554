//! An invariant between a world of `protocol` and a state of the relaxed-file machine, as definitions in `specs/`: tools compute it, and
//! laws use its words.
#![tactic(auto)]
