//! What a coverage says of one split.

/// The first `records` records of a split, at least one, as one attempt mapped them. They are
/// committed where the attempt won the split, and else tentative. (NSDI 2010, "MapReduce Online".)
#[derive(Clone, Copy, Debug, PartialEq, Eq)]
pub struct Declared {
    pub attempt: u8,
    pub records: u32,
    pub committed: bool,
}
