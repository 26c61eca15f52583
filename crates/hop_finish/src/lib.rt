//! What a run that came to its end leaves: of each reducer its history, and the text of its part.
#![tactic(auto)]

pub mod finished;
mod shelves;

pub use finished::{Finished, take_finished};
