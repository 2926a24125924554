//! Tests of values, their codes, and the command line, and callers of the tables that stand alone.
#![tactic(auto)]

pub mod callers;
#[cfg(test)]
mod gathered;
#[cfg(test)]
mod held;
#[cfg(test)]
mod payloads;
#[cfg(test)]
mod places;
#[cfg(test)]
mod primary;
#[cfg(test)]
mod records;
#[cfg(test)]
mod samples;
#[cfg(test)]
mod values;
#[cfg(test)]
mod words;
