//! Merging many runs into one.
#![tactic(auto)]

pub mod merging;

pub use merging::merge_all;
