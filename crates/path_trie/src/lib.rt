//! The namespace: a finite map from full paths to values, whose memory lies in one allocator.
#![tactic(auto)]

pub mod below;
pub mod child;
pub mod copy;
mod entries;
pub mod parts;
pub mod trie;
