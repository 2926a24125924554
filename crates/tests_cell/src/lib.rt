//! Tests of a cell by scripts and by lists of events.
#![tactic(auto)]

#[cfg(test)]
mod client_alone;
#[cfg(test)]
mod failing;
#[cfg(test)]
mod late_grant;
#[cfg(test)]
mod nul;
#[cfg(test)]
mod old_request;
#[cfg(test)]
mod outcome;
#[cfg(test)]
mod rebased;
#[cfg(test)]
mod recorded;
#[cfg(test)]
mod refused;
#[cfg(test)]
mod refused_events;
#[cfg(test)]
mod restarts;
#[cfg(test)]
mod rows;
#[cfg(test)]
mod runs;
#[cfg(test)]
mod starts;
#[cfg(test)]
mod watched;
