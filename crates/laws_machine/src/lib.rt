//! The relation between a cell's world and the whole machine, and laws of what keeps it from each world to the next. Laws of clients' calls on
//! files: which attempts may still place an entry, and what was answered.
#![tactic(auto)]

pub mod answered_writes;
pub mod bounded_calls;
pub mod call_steps;
pub mod chunk_readings;
pub mod chunk_records;
pub mod chunks_beside;
pub mod client_files;
pub mod counted_calls;
pub mod earlier_parts;
pub mod entry_steps;
pub mod file_answers;
pub mod file_calls_begin;
pub mod file_clients_stay;
pub mod file_openings;
pub mod file_steps;
pub mod full_before;
pub mod master_steps;
pub mod open_attempts;
pub mod open_calls;
pub mod open_rounds;
pub mod ordered_holders;
pub mod passed_attempts;
pub mod record_dues;
pub mod refused_asks;
pub mod rounds;
pub mod server_steps;
pub mod told_holders;
pub mod told_indexes;
pub mod told_rounds;
pub mod waited_numbers;
pub mod waited_successes;
pub mod whole_clients;
pub mod whole_steps;
pub mod whole_worlds;
