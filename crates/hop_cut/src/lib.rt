//! Snapshots: what a reducer's history covers when it first reaches a mark, and its text.
#![tactic(auto)]

pub mod cut;
pub mod head;
mod lines;
mod numbers;
mod texts;

pub use cut::{Cut, Cuts, cut_text};
pub use head::{SnapFault, SnapHead, SplitLine, cut_read};
