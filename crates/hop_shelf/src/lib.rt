//! One reducer's state: its history, what is read off it, the runs that stand for what arrived, the
//! cuts that are due, and runs that are lent to be merged.
#![tactic(auto)]

mod covering;
mod journal;
mod kept;
mod merging;
pub mod shelf;
pub mod work;

pub use shelf::{Arrived, Installed, NotYet, Shelf};
pub use work::{MergeWork, Merged};
