//! Runs: sorted pairs with the list of the parts that they were made of, and what is done with them.
#![tactic(auto)]

mod head;
pub mod heads;
mod making;
mod mapping;
mod merging;
pub mod message;
pub mod run;
mod scattered;

pub use heads::Heads;
pub use message::Parcel;
pub use run::{Run, Runs};
