//! Histories: what a reducer records of what it takes in, and everything that is read off the list
//! of its events: the records that are there of each attempt, the winners, the revocations, the
//! coverage, the progress and the cuts. Which event may come after which is said here too.
#![tactic(auto)]

pub mod declared;
pub mod event;
pub mod history;
pub mod laws;

pub use declared::Declared;
pub use event::{Event, Via};
pub use history::History;
