//! Small turns over the world of one thread.
ghost use Rattle.std.specs.Prelude.{◌≡◌, true, IfSome};
ghost use Rattle.hop_machine.specs.step.Steps.{Runs};
ghost use Rattle.hop_machine.specs.home.Conditions.{Safe};
ghost use Rattle.hop_inner.specs.Setups.{parts, setup_of};
ghost use Rattle.hop_inner.specs.Lines.{option_said};
ghost use Rattle.hop_inner.specs.Messages.{said, FitsAt};
ghost use Rattle.hop_inner.specs.Samples.{small_turn, read_one};
ghost use Rattle.hop_board.specs.PlainBoards.{words_of, verdicts_of};
ghost use Rattle.hop_crew.specs.PlainWorlds.{deeds_of};

use crate::plain_world::PlainWorld;
use hop_base::RunName;
use hop_board::PlainSeat;
use hop_inner::Message;
use hop_inner::samples::{read_one, small_turn};
use hop_shelf::Shelf;

/// What is held goes out, and a split is asked for: the same program as over any ends, and each answer is
/// the one of one thread.
pub fn plain_turn<N: RunName>(
    world: &mut PlainWorld<N, Shelf<N>>,
    w: u8,
    p: u8,
    held: &mut Option<Message<PlainSeat>>,
) -> Option<u32>
    requires safe { Safe parts true (small_turn w p (option_said said held.old)) (deeds_of (setup_of N.records N.script N.settings) world.old) }
    requires fits { IfSome held.old (FitsAt N.job N.records N.settings N.tells p (λ s. verdicts_of (words_of s.items)) (λ s. s.name) (deeds_of (setup_of N.records N.script N.settings) world.old).ends.board) }
    ensures { Runs true (small_turn w p (option_said said held.old)) (deeds_of (setup_of N.records N.script N.settings) world.old) (option_said said held.new, result) (deeds_of (setup_of N.records N.script N.settings) world.new) }
{
    small_turn(world, w, p, held)
}

/// The first message from mapper `w` is taken, and of a notice the board is asked whether the attempt is revoked: the same program as over any
/// ends, too.
pub fn plain_read<N: RunName>(world: &mut PlainWorld<N, Shelf<N>>, w: u8, p: u8) -> Option<bool>
    requires safe { Safe parts true (read_one w p) (deeds_of (setup_of N.records N.script N.settings) world.old) }
    ensures { Runs true (read_one w p) (deeds_of (setup_of N.records N.script N.settings) world.old) result (deeds_of (setup_of N.records N.script N.settings) world.new) }
{
    read_one(world, w, p)
}
