//! What a job is: the trait `Job` with its laws, the partition of a key, the blocking job as a
//! definition, and the passes over the groups of a sheet that reduce and combine it.
#![tactic(auto)]

mod entry;
pub mod flat_groups;
pub mod gathered;
mod groups_in;
pub mod hashes;
mod head;
pub mod index;
pub mod job;
pub mod partitions;
pub mod sink;

pub use flat_groups::{combine_flat, reduce_flat};
pub use gathered::Gathered;
pub use hashes::key_hash;
pub use index::Index;
pub use job::Job;
pub use partitions::partition;
pub use sink::PairSink;
