//! The ends of the lanes are told of each other.
ghost use Rattle.std.specs.Prelude.{◌≡◌, ◌<◌, ◌≤◌, ℕ};
ghost use Rattle.hop_machine.specs.home.Conditions.{HasAll};
ghost use Rattle.hop_machine.specs.home.Said.{Met};
ghost use Rattle.hop_machine.specs.play.Play.{Learns};
ghost use Rattle.hop_machine.specs.settling.Settling.{AllMet};
ghost use Rattle.hop_machine.specs.settling.Meeting.{CutMet};
ghost use Rattle.hop_settle.specs.Meets.{HasCutLane};

use hop_base::RunName;
use hop_inner::Reach;
use hop_machine::meeting_laws::{cut_lanes_meet, lanes_meet};
use hop_machine::step_laws::ends_stay;

// The lanes of mapper `w`.
fn meet_lanes<N: RunName, E: Reach<N>>(w: u8, reducers: u8, reach: &mut E)
    requires mapper { w < (E.deeds reach.old).setup.workers }
    requires reducers { reducers ≡ (E.deeds reach.old).setup.reducers }
    requires ends { HasAll (E.deeds reach.old) }
    ensures learns { Learns E.exact (E.deeds reach.old) (E.deeds reach.new) }
    ensures ends { (E.deeds reach.new).ends ≡ (E.deeds reach.old).ends }
    ensures met { (p : ℕ) → p < reducers → Met (E.deeds reach.new) w p }
    ensures others { (v p : ℕ) → Met (E.deeds reach.old) v p → Met (E.deeds reach.new) v p }
{
    lanes_meet();
    ends_stay();
    for p in 0..reducers {
        reach.meet(w, p);
    }
}

/// Each end of each lane is told of the other's whole list. No end does anything.
pub fn meet_all<N: RunName, E: Reach<N>>(workers: u8, reducers: u8, reach: &mut E)
    requires workers { workers ≡ (E.deeds reach.old).setup.workers }
    requires reducers { reducers ≡ (E.deeds reach.old).setup.reducers }
    requires ends { HasAll (E.deeds reach.old) }
    ensures learns { Learns E.exact (E.deeds reach.old) (E.deeds reach.new) }
    ensures ends { (E.deeds reach.new).ends ≡ (E.deeds reach.old).ends }
    ensures met { AllMet (E.deeds reach.new) }
{
    ends_stay();
    for w in 0..workers {
        meet_lanes(w, reducers, reach);
    }
}

/// The same of each cut lane.
pub fn meet_cuts<N: RunName, E: Reach<N>>(reducers: u8, reach: &mut E)
    requires reducers { reducers ≡ (E.deeds reach.old).setup.reducers }
    requires ends { (p : ℕ) → p < reducers → HasCutLane p (E.deeds reach.old) }
    ensures learns { Learns E.exact (E.deeds reach.old) (E.deeds reach.new) }
    ensures ends { (E.deeds reach.new).ends ≡ (E.deeds reach.old).ends }
    ensures met { (p : ℕ) → p < reducers → CutMet (E.deeds reach.new) p }
{
    cut_lanes_meet();
    for p in 0..reducers {
        reach.cut_meet(p);
    }
}
