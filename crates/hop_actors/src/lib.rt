//! The actors of a run as traits, over any ends: what a turn of each wants and does, what a coordinator asks of mappers and of reducers, and why a turn fails.
#![tactic(auto)]

pub mod actor;
pub mod fault;
pub mod snapshots;
pub mod store;
pub mod taker;
pub mod turn;

pub use actor::Actor;
pub use fault::Fault;
pub use snapshots::SnapshotWriter;
pub use store::Store;
pub use taker::Taker;
pub use turn::{Kind, Turn};
