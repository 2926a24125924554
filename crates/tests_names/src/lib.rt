//! Tests of names: paths, tries, locks, and the plain programs.
#![tactic(auto)]

#[cfg(test)]
mod both;
#[cfg(test)]
mod chunks;
#[cfg(test)]
mod deep;
#[cfg(test)]
mod locks;
#[cfg(test)]
mod names;
#[cfg(test)]
mod plans;
pub mod put;
#[cfg(test)]
mod refused;
#[cfg(test)]
mod region;
#[cfg(test)]
mod tries;
