//! A pass over the mappers, while a run is settled.
ghost use Rattle.std.specs.Prelude.{◌≡◌, ◌<◌, ◌≤◌, ◌+◌, ◌^◌, ℕ, List, length, map, OnOk, IfErr};
ghost use Rattle.hop_machine.specs.step.Steps.{Deeds};
ghost use Rattle.hop_machine.specs.actors.MapperTurns.{Mapper};
ghost use Rattle.hop_machine.specs.actors.ReducerTurns.{Reducer, Writer};
ghost use Rattle.hop_machine.specs.home.Conditions.{HasAll};
ghost use Rattle.hop_machine.specs.play.Play.{Went, Mapping, Draining, all_true};
ghost use Rattle.hop_machine.specs.run.AllHome.{IsAtPlace};
ghost use Rattle.hop_machine.specs.settling.Settling.{PassFell};
ghost use Rattle.hop_settle.specs.Crews.{actors_of, world_of, flags_of, AreWell, TurnsFrom, TurnsBelow};
ghost use Rattle.hop_settle.specs.Stops.{place_after, StoresStop};

use crate::turns::{map_turn, went_on};
use hop_actors::{Fault, Store};
use hop_base::RunName;
use hop_inner::Reach;

// A turn of the mapper at place `w`, unless it has ended.
fn map_one<N: RunName, E: Reach<N>, M: Store<N, E>>(
    mappers: &mut Vec<M>,
    w: usize,
    reach: &mut E,
) -> Result<(), Fault>
    requires place { w < length mappers.old.items }
    requires home { (rs : List Reducer) × (x : Writer) × IsAtPlace (Mapping w (flags_of (map M.mapper mappers.old.items))) (actors_of (map M.mapper mappers.old.items) rs x) (E.deeds reach.old) }
    requires ends { HasAll (E.deeds reach.old) }
    requires well { AreWell M.failed M.fits (E.deeds reach.old).ends.board mappers.old.items }
    requires turns { TurnsFrom w (2 ^ 56) (map M.mapper mappers.old.items) }
    ensures went { (rs : List Reducer) (x : Writer) → Went E.exact (Mapping w (flags_of (map M.mapper mappers.old.items)), world_of (map M.mapper mappers.old.items) rs x (E.deeds reach.old)) (place_after result (Mapping (w + 1) (flags_of (map M.mapper mappers.new.items))), world_of (map M.mapper mappers.new.items) rs x (E.deeds reach.new)) }
    ensures ends { (E.deeds reach.new).ends ≡ (E.deeds reach.old).ends }
    ensures count { length mappers.new.items ≡ length mappers.old.items }
    ensures well { OnOk result (AreWell M.failed M.fits (E.deeds reach.new).ends.board mappers.new.items) }
    ensures turns { (n : ℕ) → TurnsFrom w n (map M.mapper mappers.old.items) → TurnsFrom (w + 1) n (map M.mapper mappers.new.items) }
    ensures fell { OnOk result ((ms : List Mapper) (a : Deeds) → w < length ms → PassFell w ms (flags_of ms) a (map M.mapper mappers.old.items) (flags_of (map M.mapper mappers.old.items)) (E.deeds reach.old)
        → PassFell (w + 1) ms (flags_of ms) a (map M.mapper mappers.new.items) (flags_of (map M.mapper mappers.new.items)) (E.deeds reach.new)) }
    ensures counts { OnOk result (map M.counts mappers.new.items ≡ map M.counts mappers.old.items) }
    ensures cause { IfErr result (StoresStop N.job N.records N.script N.settings (map M.counts mappers.old.items) (map M.counts mappers.new.items)) }
{
    if mappers[w].has_ended() {
        return Ok(());
    }
    went_on(map_turn(mappers, w, reach))
}

/// A turn of each mapper that has not ended, ascending.
pub fn map_all<N: RunName, E: Reach<N>, M: Store<N, E>>(
    mappers: &mut Vec<M>,
    reach: &mut E,
) -> Result<(), Fault>
    requires home { (rs : List Reducer) × (x : Writer) × IsAtPlace (Mapping 0 (flags_of (map M.mapper mappers.old.items))) (actors_of (map M.mapper mappers.old.items) rs x) (E.deeds reach.old) }
    requires ends { HasAll (E.deeds reach.old) }
    requires well { AreWell M.failed M.fits (E.deeds reach.old).ends.board mappers.old.items }
    requires turns { TurnsBelow (2 ^ 56) (map M.mapper mappers.old.items) }
    ensures went { (rs : List Reducer) (x : Writer) → Went E.exact (Mapping 0 (flags_of (map M.mapper mappers.old.items)), world_of (map M.mapper mappers.old.items) rs x (E.deeds reach.old)) (place_after result (Draining 0 (flags_of (map M.mapper mappers.new.items))), world_of (map M.mapper mappers.new.items) rs x (E.deeds reach.new)) }
    ensures ends { (E.deeds reach.new).ends ≡ (E.deeds reach.old).ends }
    ensures count { length mappers.new.items ≡ length mappers.old.items }
    ensures well { OnOk result (AreWell M.failed M.fits (E.deeds reach.new).ends.board mappers.new.items) }
    ensures turns { (n : ℕ) → n ≤ 2 ^ 56 → TurnsBelow n (map M.mapper mappers.old.items) → TurnsBelow (n + 1) (map M.mapper mappers.new.items) }
    ensures fell { OnOk result (PassFell (length mappers.old.items) (map M.mapper mappers.old.items) (flags_of (map M.mapper mappers.old.items)) (E.deeds reach.old) (map M.mapper mappers.new.items) (flags_of (map M.mapper mappers.new.items)) (E.deeds reach.new)) }
    ensures counts { OnOk result (map M.counts mappers.new.items ≡ map M.counts mappers.old.items) }
    ensures cause { IfErr result (StoresStop N.job N.records N.script N.settings (map M.counts mappers.old.items) (map M.counts mappers.new.items)) }
{
    for w in 0..mappers.len() {
        map_one(mappers, w, reach)?;
    }
    Ok(())
}

/// Whether all mappers have ended.
pub(crate) fn all_ended<N: RunName, E: Reach<N>, M: Store<N, E>>(mappers: &Vec<M>) -> bool
    ensures { result ≡ all_true (flags_of (map M.mapper mappers.now.items)) }
{
    for w in 0..mappers.len() {
        if !mappers[w].has_ended() {
            return false;
        }
    }
    true
}
