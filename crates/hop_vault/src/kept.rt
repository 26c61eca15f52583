//! What a vault knows of a kept spill, and why it can't keep or fetch one.
use hop_base::Part;
use thiserror::Error;

/// A spill that is kept.
#[derive(Clone, Copy, Debug)]
pub struct Kept {
    /// The first record of its range, counted in the split from 0.
    pub from: u32,
    /// Where its range ends.
    pub to: u32,
    /// How many sheets it has, 1 to 8.
    pub sheets: u8,
    /// How many bytes its text has.
    pub len: u64,
    /// The SHA-256 of its text.
    pub digest: [u8; 32],
}

/// Why a spill isn't kept.
#[derive(Clone, Copy, Debug, PartialEq, Eq, Error)]
pub enum KeepFault {
    /// The folder failed; its count of faults in puts rose in this call.
    #[error("the spill can't be written")]
    StoreFailed,
    #[error("no memory")]
    NoMemory,
}

/// Why kept spills can't be fetched.
#[derive(Clone, Copy, Debug, Error)]
pub enum FetchFault {
    /// The range isn't one of whole kept spills, of which there are some. The attempt's spills are kept up
    /// to `have`.
    #[error("the attempt's spills are kept up to {have}")]
    NotKept {
        have: u32,
    },
    /// The folder failed; its count of faults in gets rose in this call. A text that has grown is one that
    /// the folder can't get.
    #[error("the spill can't be read")]
    StoreFailed,
    /// The bytes are altered: their SHA-256 isn't the one that was kept. It never comes where the folder
    /// tells what it holds.
    #[error("the spill is damaged")]
    Damaged {
        at: Part,
        kept: [u8; 32],
        found: [u8; 32],
    },
    /// The bytes have the SHA-256 that was kept and are no spill text of that range: `place` is where
    /// reading fails, or the first of the fields split, attempt, from, to and reducers that differs. It
    /// never comes where the folder tells what it holds.
    #[error("the spill is another one")]
    Collides {
        at: Part,
        place: u64,
    },
    #[error("no memory")]
    NoMemory,
}
