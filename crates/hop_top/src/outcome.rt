//! How a call ends.
use hop_base::Part;

/// A file that a command reads.
#[derive(Clone, Copy, Debug, PartialEq, Eq)]
pub enum File {
    Input,
    Script,
    Turns,
    Trace,
}

/// Why an input was refused.
#[derive(Clone, Copy, Debug, PartialEq, Eq)]
pub enum Refusal {
    /// The file has more bytes than it may: 16,777,216 for an input, 1,048,576 for a script or a turn
    /// list.
    TooLong { file: File },
    /// The record of this number, counted from 0, has more than 65,535 bytes. It is the first such
    /// one.
    RecordTooLong { index: u32 },
    /// There are more than 1,024 splits, namely `count`.
    TooManySplits { count: u32 },
    /// One attempt of each split makes more than 65,536 spills, namely `count`.
    TooManySpills { count: u64 },
}

/// How a call ended.
#[derive(Clone, Copy, Debug, PartialEq, Eq)]
pub enum Outcome {
    /// All files were put and the summary was written.
    Done,
    /// The words ask for nothing that there is. Nothing was read, put or written.
    Usage,
    /// The file can't be read: it is absent, or the job folder failed. Nothing was put or written.
    InputFailed {
        file: File,
    },
    /// The input passes a limit. Nothing was put or written.
    InputRefused(Refusal),
    /// Line `line` of the script or the turn list, counted from 1, is the first bad one. Nothing was put
    /// or written.
    ScriptRefused {
        file: File,
        line: u64,
    },
    /// Each attempt of the split that may be begun failed, as the script has it.
    RetriesSpent {
        split: u32,
    },
    /// The job folder failed at a put. The first files are there, and the one that failed is as before
    /// or as put. Nothing was written.
    FolderFailed,
    /// The spill folder of this worker failed.
    SpillFailed {
        worker: u8,
    },
    /// What was read back of a spill of this worker has another SHA-256 (`found`) than what was put
    /// (`kept`). It comes only of a folder that doesn't tell what it holds.
    SpillDamaged {
        worker: u8,
        at: Part,
        kept: [u8; 32],
        found: [u8; 32],
    },
    /// What was read back of a spill of this worker has the SHA-256 of what was put, and is no spill of
    /// that range: `place` is the byte where reading it fails. It comes only of a folder that doesn't
    /// tell what it holds.
    SpillCollides {
        worker: u8,
        at: Part,
        place: u64,
    },
    /// The summary was not written whole. All files are there.
    SayFailed,
    /// No memory was to be had. One of the states above holds.
    NoMemory,
}
