//! The words of a command line, as a command with its settings.
#![tactic(auto)]

mod command;
pub mod fault;
mod marks;
mod names;
mod numbers;
pub mod options;
mod parse;
mod read;
mod values;

pub use fault::WordsFault;
pub use names::file_name;
pub use options::{Command, Options};
pub use read::read_words;
