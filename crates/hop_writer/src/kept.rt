//! What a writer keeps of the snapshots that it put, for the later jobs of a chain.
use hop_base::Text;

/// The body of a snapshot that was put, by its mark and its reducer.
#[derive(Drop)]
pub struct Kept {
    pub mark: u16,
    pub reducer: u8,
    pub body: Text,
}
