//! The events of a reducer's history.
use hop_base::Part;

/// How a range of records came to its reducer.
#[derive(Clone, Copy, Debug, PartialEq, Eq)]
pub enum Via {
    /// By the lane of that map worker.
    Lane(u8),
    /// By the lane of that map worker, after the rounds, while the run is settled.
    Late(u8),
    /// Fetched from a map worker's spill folder.
    Pull,
}

/// What a reducer records.
#[derive(Clone, Copy, Debug, PartialEq, Eq)]
pub enum Event {
    /// The range came and was kept.
    Arrive { part: Part, via: Via },
    /// The range came and was dropped. `have` records of its attempt were there.
    Ignore { part: Part, via: Via, have: u32 },
    /// The attempt won its split: its records are committed.
    Won { split: u32, attempt: u8 },
    /// The attempt was revoked: its records are dropped.
    Revoked { split: u32, attempt: u8 },
    /// The reducer lost all records and goes on.
    Restart,
    /// All splits are there.
    Finish,
}
