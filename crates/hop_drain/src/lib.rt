//! The reducer's turn under its lock, and the calls by which a coordinator catches it up and settles it.
#![tactic(auto)]

mod acting;
mod answer;
mod calls;
pub mod drain;
mod holding;
mod looking;
mod pulling;
mod reading;
mod recording;

pub use drain::Drain;
