//! What waits behind the ready message of a lane.
use hop_base::Part;

/// A row that is held for a lane. `K` is a seat of the board.
#[derive(Drop)]
pub enum Row<K> {
    /// A range of an attempt, of whole kept spills.
    Range(Part),
    /// The attempt has ended. The seat knows that it won or is revoked.
    Notice { split: u32, attempt: u8, known: K },
}
