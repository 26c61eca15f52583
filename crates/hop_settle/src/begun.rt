//! How many attempts of each split the mappers began.
ghost use Rattle.std.specs.Prelude.{◌≡◌, ◌≤◌, length, map};
ghost use Rattle.hop_settle.specs.Begun.{AreCounted};

use crate::catching::begun_of;
use hop_actors::Store;
use hop_base::RunName;
use hop_inner::Reach;

/// Of each split, one more than the greatest attempt that some mapper began.
pub fn count_begun<N: RunName, E: Reach<N>, M: Store<N, E>>(mappers: &Vec<M>, begun: &mut [u8])
    requires few { length begun.old ≤ 1024 }
    ensures count { length begun.new ≡ length begun.old }
    ensures counted { AreCounted (map M.mapper mappers.now.items) begun.new }
{
    for split in 0..begun.len() {
        begun[split] = begun_of::<N, E, M>(mappers, split as u32);
    }
}
