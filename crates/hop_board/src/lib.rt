//! The board.
#![tactic(auto)]

pub mod plain_board;
pub mod shared_log;

pub use plain_board::{PlainBoard, PlainSeat};
