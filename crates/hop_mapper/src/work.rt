//! What a mapper has to do.

/// A running attempt, and how many records of its split are done.
#[derive(Clone, Copy, Debug, PartialEq, Eq)]
pub struct Running {
    pub split: u32,
    pub attempt: u8,
    pub done: u32,
}

/// What a mapper has to do.
#[derive(Clone, Copy, Debug, PartialEq, Eq)]
pub enum Work {
    /// An attempt runs.
    Runs(Running),
    /// A split is to be tried again.
    Retries { split: u32 },
    /// Nothing yet.
    Free,
}
