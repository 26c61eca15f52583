//! Lanes.
#![tactic(auto)]

pub mod plain_lane;

pub use plain_lane::{LaneKey, PlainLane};
