//! The headline: what a cell answers is a run of the relaxed-file machine, and so is what a journal says of a cell on threads. What clients
//! asked for, what servers, the master and clients do and tell beside the machine, what is shown of a whole world, and the induction over lists
//! of events.
#![tactic(auto)]

pub mod answers;
pub mod asked_chunks;
pub mod begun_copies;
pub mod client_words;
pub mod clients_events;
pub mod copies_in_log;
pub mod explained;
pub mod gone_handles;
pub mod granting_steps;
pub mod holders_go_on;
pub mod journals;
pub mod kept_entries;
pub mod long_refusals;
pub mod master_events;
pub mod numbered_calls;
pub mod numbered_tries;
pub mod offers;
pub mod places;
pub mod rounds_apart;
pub mod runs;
