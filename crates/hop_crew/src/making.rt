//! The lanes and locks of a world that is being made.
ghost use Rattle.std.specs.Prelude.{◌≡◌, ◌<◌, ◌≤◌, ◌*◌, ℕ, IfOk, length, map, All};
ghost use Rattle.hop_inner.specs.Setups.{setup_of};
ghost use Rattle.hop_crew.specs.Unused.{AreUnusedLanes, AreUnusedCutLanes, AreFirst, first_kept};

use crate::plain_keep::PlainKeep;
use hop_base::{NoMemory, RunName};
use hop_board::PlainSeat;
use hop_cut::Cut;
use hop_inner::{CutLane, Logged, Message, MessageLane};
use hop_lane::PlainLane;
use std::alloc::Global;

/// A lane from a mapper to a reducer of a run.
pub type MailLane<N> = PlainLane<Message<PlainSeat>, MessageLane<N, PlainSeat>>;

/// The lanes from each mapper to each reducer, those of a mapper together, by reducer.
pub(crate) fn message_lanes<N: RunName>(
    alloc: Global,
    workers: u8,
    reducers: u8,
    capacity: u8,
    seat: &PlainSeat,
) -> Result<Vec<MailLane<N>>, NoMemory>
    requires workers { workers ≤ 8 }
    requires reducers { reducers ≤ 8 }
    requires some { 0 < capacity }
    requires rule { capacity ≡ N.settings.lane }
    ensures count { IfOk result (λ lanes. length lanes.items ≡ workers * reducers) }
    ensures lanes { IfOk result (λ lanes. AreUnusedLanes seat.now.name reducers lanes.items) }
{
    let mut lanes = Vec::new(alloc);
    for i in 0..workers * reducers {
        let lane = PlainLane::new(alloc, capacity, i / reducers, i % reducers, seat)?;
        lanes.push(lane)?;
    }
    Ok(lanes)
}

/// The cut lane of each reducer, which has room for 16 cuts.
pub(crate) fn cut_lanes<N: RunName>(
    alloc: Global,
    reducers: u8,
    seat: &PlainSeat,
) -> Result<Vec<PlainLane<Cut, CutLane<N>>>, NoMemory>
    ensures count { IfOk result (λ lanes. length lanes.items ≡ reducers) }
    ensures lanes { IfOk result (λ lanes. AreUnusedCutLanes seat.now.name lanes.items) }
{
    let mut lanes = Vec::new(alloc);
    for p in 0..reducers {
        let lane = PlainLane::new(alloc, 16, 0, p, seat)?;
        lanes.push(lane)?;
    }
    Ok(lanes)
}

/// A free lock over each value.
pub(crate) fn locks<N: RunName, V: Logged>(
    alloc: Global,
    values: Vec<V>,
) -> Result<Vec<PlainKeep<V>>, NoMemory>
    requires first { AreFirst (setup_of N.records N.script N.settings) V.value V.number values.items }
    ensures count { IfOk result (λ keeps. length keeps.items ≡ length values.items) }
    ensures numbers { IfOk result (λ keeps. map (λ k. k.number) keeps.items ≡ map V.number values.items) }
    ensures kept { IfOk result (λ keeps. All (λ k. k.kept ≡ first_kept (setup_of N.records N.script N.settings)) keeps.items) }
{
    let mut keeps = Vec::new(alloc);
    for value in values {
        let keep = PlainKeep::new(alloc, value)?;
        keeps.push(keep)?;
    }
    Ok(keeps)
}
