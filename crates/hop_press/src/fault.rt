//! Why a flush stops.
use hop_base::Part;
use thiserror::Error;

/// Why what is held isn't sent: a held range can't be read back from the worker's spills.
#[derive(Clone, Copy, Debug, Error)]
pub enum FlushFault {
    /// The spill folder failed; its count of faults in gets rose in this call.
    #[error("the spill can't be read")]
    SpillFailed,
    /// The bytes of a kept spill are altered: their SHA-256 isn't the one that was kept. It never comes where
    /// the folder tells what it holds.
    #[error("the spill is damaged")]
    Damaged {
        at: Part,
        kept: [u8; 32],
        found: [u8; 32],
    },
    /// The bytes have the SHA-256 that was kept and are no spill text of that range: `place` is where reading
    /// fails, or the field that differs. It never comes where the folder tells what it holds.
    #[error("the spill is another one")]
    Collides {
        at: Part,
        place: u64,
    },
    #[error("no memory")]
    NoMemory,
}
