//! Why a turn fails.
use hop_base::Part;

/// Why an actor can't go on. It takes no further turn.
#[derive(Clone, Copy, Debug)]
pub enum Fault {
    /// Each attempt of the split below the limit failed, and it has no winner.
    SpentAt {
        split: u32,
    },
    /// The job folder failed; its count of faults in puts rose in this call.
    FolderFailed,
    /// The worker's spill folder failed; a count of its faults rose in this call.
    SpillFailed {
        worker: u8,
    },
    /// What was read back of a spill has another SHA-256 (`found`) than what was put (`kept`). It comes only of a folder that doesn't tell what it holds.
    SpillDamaged {
        worker: u8,
        at: Part,
        kept: [u8; 32],
        found: [u8; 32],
    },
    /// What was read back of a spill has the SHA-256 of what was put, and is no spill of that range: `place` is the byte where reading it fails. It comes only of a
    /// folder that doesn't tell what it holds.
    SpillCollides {
        worker: u8,
        at: Part,
        place: u64,
    },
    /// Memory was wanting.
    NoMemory,
}
