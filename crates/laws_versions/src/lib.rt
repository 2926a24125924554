//! Laws of versions, leases and replicas: to whom versions are given, when they are over, what each message says of them, and which entries
//! of their chunk's order replicas have applied.
#![tactic(auto)]

pub mod acknowledged_entries;
pub mod answered_orders;
pub mod asked_versions;
pub mod awaited_chunks;
pub mod cloned_versions;
pub mod closed_versions;
pub mod copied_entries;
pub mod copied_orders;
pub mod copied_sources;
pub mod dropped_versions;
pub mod empty_grants;
pub mod ended_replicas;
pub mod extended_leases;
pub mod first_versions;
pub mod full_orders;
pub mod given_clones;
pub mod given_once;
pub mod given_versions;
pub mod handle_indexes;
pub mod held_rounds;
pub mod held_versions;
pub mod issued_versions;
pub mod known_versions;
pub mod lasting_leases;
pub mod lawful_orders;
pub mod lease_words;
pub mod master_knowledge;
pub mod master_rows;
pub mod node_clocks;
pub mod outdated_versions;
pub mod pushed_data;
pub mod raised_versions;
pub mod refused_mutations;
pub mod replaced_chunks;
pub mod replica_images;
pub mod shared_chunks;
pub mod stored_changes;
pub mod taken_orders;
pub mod told_sizes;
pub mod told_versions;
pub mod waiting_mutations;
