//! Settling: to the end of a run.
ghost use Rattle.std.specs.Prelude.{◌≡◌, ◌<◌, ◌≤◌, ◌+◌, ◌^◌, ℕ, Bool, true, false, List, length, map, OnOk, IfErr};
ghost use Rattle.hop_machine.specs.actors.MapperTurns.{Mapper};
ghost use Rattle.hop_machine.specs.actors.ReducerTurns.{Reducer, Writer};
ghost use Rattle.hop_machine.specs.home.Conditions.{HasAll};
ghost use Rattle.hop_machine.specs.play.Play.{Went, Passing, Mapping, Emptying, all_true};
ghost use Rattle.hop_machine.specs.run.AllHome.{IsAtPlace};
ghost use Rattle.hop_machine.specs.settling.Settling.{HasRoom, pass_left};
ghost use Rattle.hop_settle.specs.Crews.{actors_of, world_of, flags_of, AreWell, IsSized, TurnsBelow, TurnsLeft};
ghost use Rattle.hop_settle.specs.Stops.{place_after, StoresStop};

use crate::drains::drain_all;
use crate::meets::meet_all;
use crate::passes::{all_ended, map_all};
use hop_actors::{Fault, Store, Taker};
use hop_base::RunName;
use hop_inner::Reach;

// A turn of each mapper that has not ended, and then turns of the reducers until all lanes are empty.
fn pass<N: RunName, E: Reach<N>, M: Store<N, E>, D: Taker<N, E>>(
    mappers: &mut Vec<M>,
    reducers: &mut Vec<D>,
    reach: &mut E,
) -> Result<(), Fault>
    requires home { (x : Writer) × IsAtPlace (Mapping 0 (flags_of (map M.mapper mappers.old.items))) (actors_of (map M.mapper mappers.old.items) (map D.reducer reducers.old.items) x) (E.deeds reach.old) }
    requires ends { HasAll (E.deeds reach.old) }
    requires well { AreWell M.failed M.fits (E.deeds reach.old).ends.board mappers.old.items }
    requires turns { TurnsBelow (2 ^ 56) (map M.mapper mappers.old.items) }
    requires sized { IsSized (E.deeds reach.old).setup }
    ensures went { (x : Writer) → Went E.exact (Mapping 0 (flags_of (map M.mapper mappers.old.items)), world_of (map M.mapper mappers.old.items) (map D.reducer reducers.old.items) x (E.deeds reach.old))
        (place_after result (Passing (flags_of (map M.mapper mappers.new.items))), world_of (map M.mapper mappers.new.items) (map D.reducer reducers.new.items) x (E.deeds reach.new)) }
    ensures ends { (E.deeds reach.new).ends ≡ (E.deeds reach.old).ends }
    ensures count { (length mappers.new.items ≡ length mappers.old.items) × (length reducers.new.items ≡ length reducers.old.items) }
    ensures well { OnOk result (AreWell M.failed M.fits (E.deeds reach.new).ends.board mappers.new.items) }
    ensures turns { (n : ℕ) → n ≤ 2 ^ 56 → TurnsBelow n (map M.mapper mappers.old.items) → TurnsBelow (n + 1) (map M.mapper mappers.new.items) }
    ensures room { OnOk result ((w : ℕ) → w < length mappers.old.items → HasRoom w (E.deeds reach.new)) }
    ensures le { OnOk result (pass_left (map M.mapper mappers.new.items) (flags_of (map M.mapper mappers.new.items)) (E.deeds reach.new) ≤ pass_left (map M.mapper mappers.old.items) (flags_of (map M.mapper mappers.old.items)) (E.deeds reach.old)) }
    ensures less { OnOk result (all_true (flags_of (map M.mapper mappers.old.items)) ≡ false → ((w : ℕ) → w < length mappers.old.items → HasRoom w (E.deeds reach.old))
        → pass_left (map M.mapper mappers.new.items) (flags_of (map M.mapper mappers.new.items)) (E.deeds reach.new) < pass_left (map M.mapper mappers.old.items) (flags_of (map M.mapper mappers.old.items)) (E.deeds reach.old)) }
    ensures counts { OnOk result (map M.counts mappers.new.items ≡ map M.counts mappers.old.items) }
    ensures cause { IfErr result (StoresStop N.job N.records N.script N.settings (map M.counts mappers.old.items) (map M.counts mappers.new.items)) }
{
    let workers = mappers.len() as u8;
    map_all(mappers, reach)?;
    meet_all(workers, reducers.len() as u8, reach);
    drain_all(reducers, reach)?;
    meet_all(workers, reducers.len() as u8, reach);
    Ok(())
}

/// Passes until all mappers have ended.
pub(crate) fn passes<N: RunName, E: Reach<N>, M: Store<N, E>, D: Taker<N, E>>(
    mappers: &mut Vec<M>,
    reducers: &mut Vec<D>,
    reach: &mut E,
) -> Result<(), Fault>
    requires home { (x : Writer) × IsAtPlace (Passing (flags_of (map M.mapper mappers.old.items))) (actors_of (map M.mapper mappers.old.items) (map D.reducer reducers.old.items) x) (E.deeds reach.old) }
    requires ends { HasAll (E.deeds reach.old) }
    requires well { AreWell M.failed M.fits (E.deeds reach.old).ends.board mappers.old.items }
    requires turns { TurnsLeft (map M.mapper mappers.old.items) (E.deeds reach.old) }
    requires sized { IsSized (E.deeds reach.old).setup }
    ensures went { (x : Writer) → Went E.exact (Passing (flags_of (map M.mapper mappers.old.items)), world_of (map M.mapper mappers.old.items) (map D.reducer reducers.old.items) x (E.deeds reach.old))
        (place_after result (Emptying 0), world_of (map M.mapper mappers.new.items) (map D.reducer reducers.new.items) x (E.deeds reach.new)) }
    ensures ends { (E.deeds reach.new).ends ≡ (E.deeds reach.old).ends }
    ensures count { (length mappers.new.items ≡ length mappers.old.items) × (length reducers.new.items ≡ length reducers.old.items) }
    ensures well { OnOk result (AreWell M.failed M.fits (E.deeds reach.new).ends.board mappers.new.items) }
    ensures counts { OnOk result (map M.counts mappers.new.items ≡ map M.counts mappers.old.items) }
    ensures cause { IfErr result (StoresStop N.job N.records N.script N.settings (map M.counts mappers.old.items) (map M.counts mappers.new.items)) }
{
    // The lanes may be full before the first pass, and are empty before each later one.
    let mut first = true;
    while !all_ended(mappers) {
        pass(mappers, reducers, reach)?;
        first = false;
    }
    Ok(())
}
