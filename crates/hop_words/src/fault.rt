//! Why words ask for nothing.
use thiserror::Error;

/// Why the words of a command line were not taken.
#[derive(Clone, Copy, Debug, PartialEq, Eq, Error)]
pub enum WordsFault {
    /// They ask for nothing that there is.
    #[error("the words are not understood")]
    Usage,
    #[error("no memory")]
    NoMemory,
}
