//! Reducers that wait for their locks.
ghost use Rattle.std.specs.Prelude.{◌≡◌, length, map};
ghost use Rattle.hop_machine.specs.play.Play.{is_late};

use hop_actors::Taker;
use hop_base::RunName;
use hop_inner::Reach;

/// From now on each reducer waits for its lock, and ranges that come by a lane are recorded as late.
pub(crate) fn all_late<N: RunName, E: Reach<N>, D: Taker<N, E>>(reducers: &mut Vec<D>)
    ensures late { map D.reducer reducers.new.items ≡ map is_late (map D.reducer reducers.old.items) }
    ensures count { length reducers.new.items ≡ length reducers.old.items }
{
    for p in 0..reducers.len() {
        reducers[p].late();
    }
}
