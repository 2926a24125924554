//! The laws on which the others stand: orders are numbered once, versions are granted once, one lease of a chunk lasts, and the master's
//! log, replayed, has its names, files and chunks. Laws of single steps of the nodes, of the messages that they send, of the entries of
//! chunks' orders (who asked for each, that it is numbered once, what is settled), and of what a client is answered.
#![tactic(auto)]

pub mod answered_appends;
pub mod answered_attempts;
pub mod answers;
pub mod asked_entries;
pub mod attempts;
pub mod bounded_entries;
pub mod caused_words;
pub mod chunk_orders;
pub mod counted_serials;
pub mod deadlines_laws;
pub mod few_attempts;
pub mod file_calls;
pub mod full_chunks;
pub mod kept_attempts;
pub mod laws;
pub mod leased_answers;
pub mod location_words;
pub mod locations_laws;
pub mod name_calls;
pub mod new_copies;
pub mod new_handles;
pub mod numbered_once;
pub mod numbers;
pub mod one_entry;
pub mod placed_entries;
pub mod reads;
pub mod replica_changes;
pub mod replicas;
pub mod rising_rounds;
pub mod serials_once;
pub mod settled_entries;
pub mod successes_laws;
pub mod taken_successes;
pub mod told_full_chunks;
pub mod told_shapes;
pub mod versions;
pub mod waited_rounds;
