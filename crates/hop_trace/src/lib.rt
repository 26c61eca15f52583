//! The trace of a run: how many attempts of each split were begun, and what each reducer recorded, as a text of lines.
#![tactic(auto)]

pub mod laws;
mod lines;
pub mod totals;
pub mod trace;

pub use totals::{Way, attempts_in_all, events_in_all, kept_in_all};
pub use trace::trace_text;
