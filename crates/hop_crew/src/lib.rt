//! The world of one thread: all lanes, the board and the locks of a run.
#![tactic(auto)]

mod making;
pub mod plain_keep;
pub mod plain_world;
pub mod samples;

pub use making::MailLane;
pub use plain_keep::PlainKeep;
pub use plain_world::PlainWorld;
