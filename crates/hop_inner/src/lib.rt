//! What actors reach: the ends of lanes, of the board and of locks, as traits that hold on one thread
//! and between threads alike, and one function over any of them for each kind of step.
#![tactic(auto)]

pub mod board;
pub mod keep;
pub mod lane;
pub mod message;
pub mod reach;
pub mod samples;
pub mod shelved;
pub mod steps;

pub use board::{Board, Knowing};
pub use keep::{Keep, Logged};
pub use lane::{Full, LaneRule, Receiver, Sender};
pub use message::{CutLane, Message, MessageLane};
pub use reach::Reach;
