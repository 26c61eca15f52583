//! Turns.
use crate::fault::Fault;

/// What a turn did.
#[derive(Clone, Copy, Debug)]
pub enum Turn {
    /// It did something.
    Worked,
    /// There was nothing to do now.
    Idle,
    /// Nothing is left to do. Only a mapper ends.
    Ended,
    /// It stopped midway.
    Failed(Fault),
}

/// The kinds of actors.
#[derive(Clone, Copy, Debug, PartialEq, Eq)]
pub enum Kind {
    Mapper,
    Reducer,
    Merger,
    Writer,
}
