//! Tests of producers and readers on a running cell: how its nodes run beside each other.
#![tactic(auto)]

#[cfg(test)]
mod appends;
#[cfg(test)]
mod cells;
#[cfg(test)]
mod gate;
#[cfg(test)]
mod keeping;
#[cfg(test)]
mod producers;
#[cfg(test)]
mod restarts;
