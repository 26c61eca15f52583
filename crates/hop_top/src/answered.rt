//! An outcome with the job folder.
use crate::outcome::Outcome;

/// How a command ended, with the job folder that was moved in for it.
#[derive(Drop)]
pub struct Answered<F> {
    pub outcome: Outcome,
    pub folder: F,
}
