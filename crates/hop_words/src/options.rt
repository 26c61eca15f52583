//! A command with its settings.
use hop_base::{Settings, Text};
use hop_jobs::{Jobs, Known};

/// A command, with its job and the names of its files.
#[derive(Debug, Drop)]
pub enum Command {
    /// The blocking job over an input.
    Block { job: Known, input: Text },
    /// The pipelined job over an input.
    Run { job: Known, input: Text },
    /// The same on one thread, by a turn list.
    Replay { job: Known, input: Text },
    /// Two to four jobs in a row: the first is the pipelined job over the input, and each later one is the blocking job over what
    /// the job before it gave, as chains are in MapReduce Online (NSDI 2010).
    Chain { jobs: Jobs, input: Text },
}

/// A command with its settings, and the names of the files that options give.
#[derive(Debug, Drop)]
pub struct Options {
    pub command: Command,
    pub settings: Settings,
    /// The fault script.
    pub script: Option<Text>,
    /// The turn list. A replay has one.
    pub turns: Option<Text>,
    /// The trace to be checked.
    pub trace: Option<Text>,
}
