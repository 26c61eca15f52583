//! A lane of one thread.

use hop_base::NoMemory;
use hop_inner::{Full, Knowing, LaneRule, Receiver, Sender};
use hop_lane::PlainLane;
use std::alloc::Global;
use std::test::Fail;

// Lanes of one message, whatever it is.
struct OneMessage;

impl LaneRule<u8> for OneMessage {
    ghost use Rattle.std.specs.Prelude.{ℕ};

    ghost allows = { λ key earlier message. Unit {0} };

    ghost capacity = { 1 };
}

// A seat of no board.
#[derive(Drop)]
struct NoBoard;

impl Knowing for NoBoard {
    ghost use Rattle.std.specs.Prelude.{false, []};

    ghost knows = { λ s. record { won = λ i a. false; gone = λ i a. false } };

    ghost board = { λ s. [] };
}

fn lane(alloc: Global) -> Result<PlainLane<u8, OneMessage>, NoMemory> {
    PlainLane::new(alloc, 1, 0, 0, &NoBoard)
}

#[test]
fn a_full_lane_hands_the_message_back(rt: HostRuntime) -> Result<(), Fail> {
    let mut lane = lane(rt.alloc())?;
    assert!(rt; lane.send(7).is_ok());
    assert!(rt; matches!(lane.send(8), Err(Full(8))));
    assert_eq!(rt; lane.take(), Some(7));
    assert_eq!(rt; lane.take(), None);
    Ok(())
}
