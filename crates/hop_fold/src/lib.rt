//! The blocking job: map all records, group the pairs by key, and reduce each key once.
#![tactic(auto)]

pub mod blocking;
pub mod folded;
mod lines;
mod lists;

pub use blocking::{block, block_lines, block_short_lines};
pub use folded::Folded;
