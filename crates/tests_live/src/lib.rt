//! Tests of a running cell: its calls, what it refuses, and how it is parked and goes on.
#![tactic(auto)]

#[cfg(test)]
mod calls;
#[cfg(test)]
mod cells;
#[cfg(test)]
mod looking;
#[cfg(test)]
mod parking;
#[cfg(test)]
mod refusals;
#[cfg(test)]
mod resuming;
