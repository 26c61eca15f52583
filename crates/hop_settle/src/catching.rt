//! Catching up.
ghost use Rattle.std.specs.Prelude.{◌≡◌, ◌<◌, ◌≤◌, ℕ, List, length, map, OnOk, IfErr, Some, is_ok};
ghost use Rattle.std.specs.List.{slice_get};
ghost use Rattle.hop_machine.specs.declared.words.Turn.TheVariants as said;
ghost use Rattle.hop_machine.specs.step.Setup.{splits_of};
ghost use Rattle.hop_machine.specs.step.Steps.{Runs};
ghost use Rattle.hop_machine.specs.actors.MapperTurns.{Mapper};
ghost use Rattle.hop_machine.specs.actors.ReducerTurns.{Writer};
ghost use Rattle.hop_machine.specs.home.Conditions.{HasAll};
ghost use Rattle.hop_machine.specs.play.Play.{Order, CatchingUp, Listed, Went, rows_of_split, kept_rows, catch_up};
ghost use Rattle.hop_machine.specs.run.AllHome.{Ready};
ghost use Rattle.hop_actors.specs.Acting.{said_fault};
ghost use Rattle.hop_actors.specs.Calls.{found};
ghost use Rattle.hop_settle.specs.CaughtUp.{MayCatch, MayCatchUp, pull_each};
ghost use Rattle.hop_settle.specs.Crews.{AreWell, actors_of, world_of};
ghost use Rattle.hop_settle.specs.Stops.{StoresStop, place_after};

use crate::pulling::{keeper_of, pull_into};
use hop_actors::{Fault, Store, Taker};
use hop_base::{Part, RunName};
use hop_inner::Reach;

// What was kept of an attempt is pulled, where the reducer wants it and lacks some: whether a restart came.
fn catch_attempt<N: RunName, E: Reach<N>, M: Store<N, E>, D: Taker<N, E>>(
    mappers: &mut Vec<M>,
    reducer: &mut D,
    p: u8,
    split: u32,
    attempt: u8,
    reach: &mut E,
) -> Result<bool, Fault>
    requires partition { p < N.settings.reducers }
    requires may { MayCatch (map M.mapper mappers.old.items) p (D.reducer reducer.old) (E.deeds reach.old) }
    requires well { AreWell M.failed M.fits (E.deeds reach.old).ends.board mappers.old.items }
    ensures runs { Runs E.exact (pull_each (rows_of_split (map M.mapper mappers.old.items) split attempt 1) (D.reducer reducer.old)) (E.deeds reach.old) (D.reducer reducer.new, found result) (E.deeds reach.new) }
    ensures same { map M.mapper mappers.new.items ≡ map M.mapper mappers.old.items }
    ensures well { AreWell M.failed M.fits (E.deeds reach.new).ends.board mappers.new.items }
    ensures counts { OnOk result (map M.counts mappers.new.items ≡ map M.counts mappers.old.items) }
    ensures cause { IfErr result (StoresStop N.job N.records N.script N.settings (map M.counts mappers.old.items) (map M.counts mappers.new.items)) }
    ensures stops { IfErr result (λ fault. said_fault fault ≡ said.Stopped) }
{
    let end = keeper_of::<N, E, M>(mappers, split, attempt).end;
    if end == 0 {
        return Ok(false);
    }
    if !reducer.wants(reach, split, attempt) {
        return Ok(false);
    }
    let from = reducer.upto(reach, split, attempt);
    if from >= end {
        return Ok(false);
    }
    let part = Part {
        split,
        attempt,
        from,
        to: end,
    };
    pull_into(mappers, reducer, p, part, reach)
}

// How many attempts of the split some mapper began, at most: above them nothing was kept.
pub(crate) fn begun_of<N: RunName, E: Reach<N>, M: Store<N, E>>(mappers: &Vec<M>, split: u32) -> u8
    ensures most { (w : ℕ) (m : Mapper) → slice_get (map M.mapper mappers.now.items) w ≡ Some m → m.begun split ≤ result }
    ensures least { (n : ℕ) → ((w : ℕ) (m : Mapper) → slice_get (map M.mapper mappers.now.items) w ≡ Some m → m.begun split ≤ n) → result ≤ n }
{
    let mut most = 0;
    for w in 0..mappers.len() {
        let begun = mappers[w].begun(split);
        if begun > most {
            most = begun;
        }
    }
    most
}

// What was kept of each attempt of a split.
fn catch_split<N: RunName, E: Reach<N>, M: Store<N, E>, D: Taker<N, E>>(
    mappers: &mut Vec<M>,
    reducer: &mut D,
    p: u8,
    split: u32,
    reach: &mut E,
) -> Result<bool, Fault>
    requires partition { p < N.settings.reducers }
    requires may { MayCatch (map M.mapper mappers.old.items) p (D.reducer reducer.old) (E.deeds reach.old) }
    requires well { AreWell M.failed M.fits (E.deeds reach.old).ends.board mappers.old.items }
    ensures runs { Runs E.exact (pull_each (rows_of_split (map M.mapper mappers.old.items) split 0 (E.deeds reach.old).setup.attempts) (D.reducer reducer.old)) (E.deeds reach.old) (D.reducer reducer.new, found result) (E.deeds reach.new) }
    ensures same { map M.mapper mappers.new.items ≡ map M.mapper mappers.old.items }
    ensures well { AreWell M.failed M.fits (E.deeds reach.new).ends.board mappers.new.items }
    ensures counts { OnOk result (map M.counts mappers.new.items ≡ map M.counts mappers.old.items) }
    ensures cause { IfErr result (StoresStop N.job N.records N.script N.settings (map M.counts mappers.old.items) (map M.counts mappers.new.items)) }
    ensures stops { IfErr result (λ fault. said_fault fault ≡ said.Stopped) }
{
    for attempt in 0..begun_of::<N, E, M>(mappers, split) {
        if catch_attempt(mappers, reducer, p, split, attempt, reach)? {
            return Ok(true);
        }
    }
    Ok(false)
}

// What was kept of each attempt of all splits.
fn catch_splits<N: RunName, E: Reach<N>, M: Store<N, E>, D: Taker<N, E>>(
    mappers: &mut Vec<M>,
    reducer: &mut D,
    p: u8,
    reach: &mut E,
) -> Result<bool, Fault>
    requires partition { p < N.settings.reducers }
    requires may { MayCatch (map M.mapper mappers.old.items) p (D.reducer reducer.old) (E.deeds reach.old) }
    requires well { AreWell M.failed M.fits (E.deeds reach.old).ends.board mappers.old.items }
    ensures runs { Runs E.exact (pull_each (kept_rows (map M.mapper mappers.old.items) (E.deeds reach.old).setup.attempts 0 (splits_of (E.deeds reach.old).setup)) (D.reducer reducer.old)) (E.deeds reach.old) (D.reducer reducer.new, found result) (E.deeds reach.new) }
    ensures same { map M.mapper mappers.new.items ≡ map M.mapper mappers.old.items }
    ensures well { AreWell M.failed M.fits (E.deeds reach.new).ends.board mappers.new.items }
    ensures counts { OnOk result (map M.counts mappers.new.items ≡ map M.counts mappers.old.items) }
    ensures cause { IfErr result (StoresStop N.job N.records N.script N.settings (map M.counts mappers.old.items) (map M.counts mappers.new.items)) }
    ensures stops { IfErr result (λ fault. said_fault fault ≡ said.Stopped) }
{
    let splits = reducer.lens().as_slice().len();
    for split in 0..splits {
        if catch_split(mappers, reducer, p, split as u32, reach)? {
            return Ok(true);
        }
    }
    Ok(false)
}

// A reducer that restarted since it was last caught up is caught up, unless a restart is due.
fn catch_one<N: RunName, E: Reach<N>, M: Store<N, E>, D: Taker<N, E>>(
    mappers: &mut Vec<M>,
    reducer: &mut D,
    p: u8,
    reach: &mut E,
) -> Result<(), Fault>
    requires partition { p < N.settings.reducers }
    requires may { MayCatchUp (map M.mapper mappers.old.items) p (D.reducer reducer.old) (E.deeds reach.old) }
    requires well { AreWell M.failed M.fits (E.deeds reach.old).ends.board mappers.old.items }
    ensures runs { Runs E.exact (catch_up (kept_rows (map M.mapper mappers.old.items) (E.deeds reach.old).setup.attempts 0 (splits_of (E.deeds reach.old).setup)) (D.reducer reducer.old)) (E.deeds reach.old) (D.reducer reducer.new, is_ok result) (E.deeds reach.new) }
    ensures same { map M.mapper mappers.new.items ≡ map M.mapper mappers.old.items }
    ensures well { AreWell M.failed M.fits (E.deeds reach.new).ends.board mappers.new.items }
    ensures counts { OnOk result (map M.counts mappers.new.items ≡ map M.counts mappers.old.items) }
    ensures cause { IfErr result (StoresStop N.job N.records N.script N.settings (map M.counts mappers.old.items) (map M.counts mappers.new.items)) }
    ensures stops { IfErr result (λ fault. said_fault fault ≡ said.Stopped) }
{
    if !reducer.lagging() {
        return Ok(());
    }
    match reducer.restart_due(reach) {
        Ok(false) => {}
        Ok(true) => return Ok(()),
        Err(_) => return Err(Fault::NoMemory),
    }
    if !catch_splits(mappers, reducer, p, reach)? {
        reducer.caught_up();
    }
    Ok(())
}

/// Each reducer that restarted since it was last caught up, ascending, is given what was kept of each attempt that it wants, by split and then attempt, as far as it lacks it. A restart
/// that is due is recorded, and leaves its reducer for the next catching up. A fault is of a mapper that failed to fetch, or want of memory.
pub fn catch_up<N: RunName, E: Reach<N>, M: Store<N, E>, D: Taker<N, E>>(
    mappers: &mut Vec<M>,
    reducers: &mut Vec<D>,
    reach: &mut E,
) -> Result<(), Fault>
    requires few { length reducers.old.items ≤ 256 }
    requires home { (x : Writer) × Ready (actors_of (map M.mapper mappers.old.items) (map D.reducer reducers.old.items) x) (E.deeds reach.old) }
    requires ends { HasAll (E.deeds reach.old) }
    requires well { AreWell M.failed M.fits (E.deeds reach.old).ends.board mappers.old.items }
    ensures went { (list : List Order) (x : Writer) → Went E.exact (CatchingUp 0 list, world_of (map M.mapper mappers.old.items) (map D.reducer reducers.old.items) x (E.deeds reach.old)) (place_after result (Listed list), world_of (map M.mapper mappers.new.items) (map D.reducer reducers.new.items) x (E.deeds reach.new)) }
    ensures ends { (E.deeds reach.new).ends ≡ (E.deeds reach.old).ends }
    ensures same { map M.mapper mappers.new.items ≡ map M.mapper mappers.old.items }
    ensures count { length reducers.new.items ≡ length reducers.old.items }
    ensures well { AreWell M.failed M.fits (E.deeds reach.new).ends.board mappers.new.items }
    ensures counts { OnOk result (map M.counts mappers.new.items ≡ map M.counts mappers.old.items) }
    ensures cause { IfErr result (StoresStop N.job N.records N.script N.settings (map M.counts mappers.old.items) (map M.counts mappers.new.items)) }
{
    for p in 0..reducers.len() {
        catch_one(mappers, &mut reducers[p], p as u8, reach)?;
    }
    Ok(())
}
