//! Why a text is refused.
use thiserror::Error;

/// Why a text is no fault script, or no turn list.
#[derive(Clone, Copy, Debug, PartialEq, Eq, Error)]
pub enum LineFault {
    /// Line `line`, counted from 1, is the first bad one.
    #[error("line {line} is bad")]
    BadLine { line: u32 },
    #[error("no memory")]
    NoMemory,
}
