//! What a mapper sends of a part of its split.
use crate::run::Run;
use hop_base::Part;

/// The pairs of a part in the reducer's partition, as a run.
#[derive(Debug, Drop)]
pub struct Parcel {
    pub part: Part,
    pub run: Run,
}
