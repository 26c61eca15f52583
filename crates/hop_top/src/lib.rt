//! The top call: the words are read, the command is done, and the outcome says how it ended.
#![tactic(auto)]

pub mod answered;
pub mod block;
pub mod check;
pub mod ending;
pub mod outcome;
pub mod puts;
pub mod reads;
pub mod report;
pub mod run;
pub mod top;

pub use outcome::{File, Outcome, Refusal};
pub use report::{fault_line, status};
pub use top::{Handed, hop, hop_plain};
