//! Two small turns over any ends: they show how generic code reaches what it shares, and that it proves no
//! answer of its own for a step.
ghost use Rattle.std.specs.Prelude.{◌≡◌, IfSome};
ghost use Rattle.hop_machine.specs.declared.words.Who.TheVariants as actor;
ghost use Rattle.hop_machine.specs.step.Steps.{Runs, IsKnown};
ghost use Rattle.hop_machine.specs.home.Conditions.{Safe};
ghost use Rattle.hop_inner.specs.Setups.{parts};
ghost use Rattle.hop_inner.specs.Lines.{option_said};
ghost use Rattle.hop_inner.specs.Messages.{said, FitsAt};
ghost use Rattle.hop_inner.specs.Samples.{flush_one, small_turn, read_one};

use crate::board::Knowing;
use crate::lane::Full;
use crate::message::Message;
use crate::reach::Reach;
use crate::steps::{is_revoked_on, join_on, next_split_on, send_on, take_on};
use hop_base::RunName;
use hop_machine::Who;

/// What is held goes out, if the lane has room.
pub fn flush_one<N: RunName, E: Reach<N>>(
    reach: &mut E,
    w: u8,
    p: u8,
    held: &mut Option<Message<E::Seat>>,
)
    requires safe { Safe parts E.exact (flush_one w p (option_said said held.old)) (E.deeds reach.old) }
    requires fits { IfSome held.old (FitsAt N.job N.records N.settings N.tells p E.Seat.knows E.Seat.board (E.deeds reach.old).ends.board) }
    ensures { Runs E.exact (flush_one w p (option_said said held.old)) (E.deeds reach.old) (option_said said held.new) (E.deeds reach.new) }
{
    match held.take() {
        None => {}
        Some(msg) => match send_on(reach, w, p, msg) {
            Ok(()) => {}
            Err(Full(msg)) => {
                *held = Some(msg);
            }
        },
    }
}

/// And then a split is asked for.
pub fn small_turn<N: RunName, E: Reach<N>>(
    reach: &mut E,
    w: u8,
    p: u8,
    held: &mut Option<Message<E::Seat>>,
) -> Option<u32>
    requires safe { Safe parts E.exact (small_turn w p (option_said said held.old)) (E.deeds reach.old) }
    requires fits { IfSome held.old (FitsAt N.job N.records N.settings N.tells p E.Seat.knows E.Seat.board (E.deeds reach.old).ends.board) }
    ensures { Runs E.exact (small_turn w p (option_said said held.old)) (E.deeds reach.old) (option_said said held.new, result) (E.deeds reach.new) }
{
    flush_one(reach, w, p, held);
    next_split_on(reach, w)
}

/// Whether the attempt of a notice is revoked.
pub fn read_one<N: RunName, E: Reach<N>>(reach: &mut E, w: u8, p: u8) -> Option<bool>
    requires { Safe parts E.exact (read_one w p) (E.deeds reach.old) }
    ensures { Runs E.exact (read_one w p) (E.deeds reach.old) result (E.deeds reach.new) }
{
    match take_on(reach, w, p) {
        None => None,
        Some(Message::Parcel(_)) => None,
        Some(
            Message::Notice {
                split,
                attempt,
                known,
            },
        ) => {
            join_on(reach, p, split, attempt, known);
            Some(is_revoked_on(reach, Who::Reducer(p), split, attempt))
        }
    }
}
