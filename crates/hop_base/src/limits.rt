//! The limits of a run, each inclusive. Sizes are in bytes.

/// Bytes of an input.
pub const MAX_INPUT: u64 = 16_777_216;

/// Bytes of a fault script, and of a turn list.
pub const MAX_SCRIPT: u64 = 1_048_576;

/// Bytes of a trace that is checked.
pub const MAX_TRACE: u64 = 268_435_456;

/// Bytes of a record of an input.
pub const MAX_RECORD: usize = 65_535;

/// Bytes of a record of a later job in a chain.
pub const MAX_LATER_RECORD: usize = 131_050;

/// Bytes of a key, and of the text of a value.
pub const MAX_BLOB: usize = 131_071;

/// Pairs that map emits for one record.
pub const MAX_EMITTED: usize = 65_536;

/// Splits of an input.
pub const MAX_SPLITS: u32 = 1_024;

/// Records of a split, and of an input: each has a byte at least.
pub const MAX_RECORDS: u32 = 16_777_216;

/// Attempts of a split that may be begun.
pub const MAX_ATTEMPTS: u8 = 16;

/// Reducers of a run, and so partitions.
pub const MAX_REDUCERS: u8 = 8;

/// Map workers of a run.
pub const MAX_WORKERS: u8 = 8;

/// Spills of one attempt of each split, summed over the splits.
pub const MAX_SPILLS: u64 = 65_536;

/// Marks of a run.
pub const MAX_MARKS: usize = 16;

/// The greatest mark, which is the progress of a coverage of everything.
pub const MAX_MARK: u16 = 10_000;

/// Turns of a turn list, counts summed.
pub const MAX_TURNS: u64 = 1_000_000;

/// Lines of a generated text.
pub const MAX_LINES: u32 = 500_000;
