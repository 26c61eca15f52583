//! What a history covers of each split, and its progress, kept as a table by attempt. One event more
//! changes one split at most, whatever came before; a restart changes all.
#![tactic(auto)]

pub mod coverage;
mod row;

pub use coverage::{Coverage, Declares};
pub use hop_event::Declared;
