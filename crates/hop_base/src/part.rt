//! Ranges of records.

/// Records of a split, as an attempt maps them: from `from` up to and without `to`, counted in the
/// split from 0.
#[derive(Clone, Copy, Debug, PartialEq, Eq, PartialOrd, Ord)]
pub struct Part {
    pub split: u32,
    pub attempt: u8,
    pub from: u32,
    pub to: u32,
}
