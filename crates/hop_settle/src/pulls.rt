//! Pulls of settling: what each reducer lacks of each split's winner, and the finish of its history.
ghost use Rattle.std.specs.Prelude.{◌≡◌, ◌<◌, ◌≤◌, ◌+◌, ◌-◌, ◌^◌, ℕ, Bool, List, length, map, OnOk, IfOk, IfErr, Some, slice_index};
ghost use Rattle.std.specs.List.{slice_get};
ghost use Rattle.hop_machine.specs.declared.words.Turn.TheVariants as said;
ghost use Rattle.hop_machine.specs.step.Steps.{Runs};
ghost use Rattle.hop_machine.specs.step.Setup.{splits_of};
ghost use Rattle.hop_machine.specs.actors.MapperTurns.{Mapper};
ghost use Rattle.hop_machine.specs.actors.ReducerTurns.{Reducer, Writer};
ghost use Rattle.hop_machine.specs.home.Conditions.{HasReducer};
ghost use Rattle.hop_machine.specs.play.Play.{Went, Pulling, Writing, pull_split, after_pull};
ghost use Rattle.hop_machine.specs.run.AllHome.{Pulls};
ghost use Rattle.hop_machine.specs.settling.Settling.{pulls_left, split_after};
ghost use Rattle.hop_actors.specs.Acting.{said_fault};
ghost use Rattle.hop_actors.specs.Calls.{found};
ghost use Rattle.hop_settle.specs.Crews.{AreWell, IsSized, actors_of, world_of};
ghost use Rattle.hop_settle.specs.Lacking.{Lacks, HasReducers, AreBegunBy, MayFinishHere};
ghost use Rattle.hop_settle.specs.Stops.{place_after, StoresStop};

use crate::lacking_laws::{histories_may_finish, winners_are_pulled};
use crate::pulling::pull_into;
use hop_actors::{Fault, Store, Taker};
use hop_base::{Lens, Part, RunName};
use hop_inner::Reach;
use hop_machine::place_laws::calls_are_due;

// The record count of a split.
fn len_of(lens: &Lens, split: u32) -> u32
    requires { split < length lens.now }
    ensures { result ≡ slice_index lens.now split }
{
    lens.as_slice()[split as usize]
}

// What the reducer of partition `p` lacks of the split's winner is pulled: whether a restart came after it.
fn pull_winner<N: RunName, E: Reach<N>, M: Store<N, E>, D: Taker<N, E>>(
    mappers: &mut Vec<M>,
    reducer: &mut D,
    p: u8,
    split: u32,
    reach: &mut E,
) -> Result<bool, Fault>
    requires partition { p < N.settings.reducers }
    requires number { (D.reducer reducer.old).number ≡ p }
    requires split { split < splits_of (E.deeds reach.old).setup }
    requires lacks { Lacks (map M.mapper mappers.old.items) (D.reducer reducer.old) split (E.deeds reach.old) }
    requires ends { HasReducer p (E.deeds reach.old) }
    requires well { AreWell M.failed M.fits (E.deeds reach.old).ends.board mappers.old.items }
    ensures runs { Runs E.exact (pull_split split (D.reducer reducer.old)) (E.deeds reach.old) (D.reducer reducer.new, found result) (E.deeds reach.new) }
    ensures same { map M.mapper mappers.new.items ≡ map M.mapper mappers.old.items }
    ensures well { AreWell M.failed M.fits (E.deeds reach.new).ends.board mappers.new.items }
    ensures counts { OnOk result (map M.counts mappers.new.items ≡ map M.counts mappers.old.items) }
    ensures cause { IfErr result (StoresStop N.job N.records N.script N.settings (map M.counts mappers.old.items) (map M.counts mappers.new.items)) }
    ensures stops { IfErr result (λ fault. said_fault fault ≡ said.Stopped) }
{
    winners_are_pulled();
    let Some(attempt) = reducer.winner(reach, split) else {
        return Ok(false);
    };
    let from = reducer.upto(reach, split, attempt);
    let to = len_of(reducer.lens(), split);
    if from >= to {
        return Ok(false);
    }
    let part = Part {
        split,
        attempt,
        from,
        to,
    };
    pull_into(mappers, reducer, p, part, reach)
}

// The same for the reducer at place `p` of a list.
fn pull_one<N: RunName, E: Reach<N>, M: Store<N, E>, D: Taker<N, E>>(
    mappers: &mut Vec<M>,
    reducers: &mut Vec<D>,
    p: u8,
    split: u32,
    reach: &mut E,
) -> Result<bool, Fault>
    requires place { p < length reducers.old.items }
    requires split { split < splits_of (E.deeds reach.old).setup }
    requires home { (x : Writer) × Pulls p split (actors_of (map M.mapper mappers.old.items) (map D.reducer reducers.old.items) x) (E.deeds reach.old) }
    requires ends { HasReducers (E.deeds reach.old) }
    requires well { AreWell M.failed M.fits (E.deeds reach.old).ends.board mappers.old.items }
    ensures went { (x : Writer) → Went E.exact (Pulling p split, world_of (map M.mapper mappers.old.items) (map D.reducer reducers.old.items) x (E.deeds reach.old)) (after_pull p split (found result), world_of (map M.mapper mappers.new.items) (map D.reducer reducers.new.items) x (E.deeds reach.new)) }
    ensures falls { IfOk result (λ restarted. pulls_left p (split_after split restarted) (E.deeds reach.new) < pulls_left p split (E.deeds reach.old)) }
    ensures ends { (E.deeds reach.new).ends ≡ (E.deeds reach.old).ends }
    ensures count { length reducers.new.items ≡ length reducers.old.items }
    ensures same { map M.mapper mappers.new.items ≡ map M.mapper mappers.old.items }
    ensures well { AreWell M.failed M.fits (E.deeds reach.new).ends.board mappers.new.items }
    ensures counts { OnOk result (map M.counts mappers.new.items ≡ map M.counts mappers.old.items) }
    ensures cause { IfErr result (StoresStop N.job N.records N.script N.settings (map M.counts mappers.old.items) (map M.counts mappers.new.items)) }
    ensures stops { IfErr result (λ fault. said_fault fault ≡ said.Stopped) }
{
    pull_winner(mappers, &mut reducers[p as usize], p, split, reach)
}

// The split whose turn it is after a pull: a restart begins them again.
fn next_split(split: u32, restarted: bool) -> u32
    requires { split < 2 ^ 32 - 1 }
    ensures { result ≡ split_after split restarted }
{
    if restarted { 0 } else { split + 1 }
}

// What the reducer of partition `p` lacks of each split's winner is pulled; after a restart from the first split on again.
fn pull_all<N: RunName, E: Reach<N>, M: Store<N, E>, D: Taker<N, E>>(
    mappers: &mut Vec<M>,
    reducers: &mut Vec<D>,
    p: u8,
    splits: u32,
    reach: &mut E,
) -> Result<(), Fault>
    requires place { p < length reducers.old.items }
    requires splits { splits ≡ splits_of (E.deeds reach.old).setup }
    requires home { (x : Writer) × Pulls p 0 (actors_of (map M.mapper mappers.old.items) (map D.reducer reducers.old.items) x) (E.deeds reach.old) }
    requires ends { HasReducers (E.deeds reach.old) }
    requires well { AreWell M.failed M.fits (E.deeds reach.old).ends.board mappers.old.items }
    ensures went { (x : Writer) → Went E.exact (Pulling p 0, world_of (map M.mapper mappers.old.items) (map D.reducer reducers.old.items) x (E.deeds reach.old)) (place_after result (Pulling p splits), world_of (map M.mapper mappers.new.items) (map D.reducer reducers.new.items) x (E.deeds reach.new)) }
    ensures ends { (E.deeds reach.new).ends ≡ (E.deeds reach.old).ends }
    ensures count { length reducers.new.items ≡ length reducers.old.items }
    ensures same { map M.mapper mappers.new.items ≡ map M.mapper mappers.old.items }
    ensures well { AreWell M.failed M.fits (E.deeds reach.new).ends.board mappers.new.items }
    ensures counts { OnOk result (map M.counts mappers.new.items ≡ map M.counts mappers.old.items) }
    ensures cause { IfErr result (StoresStop N.job N.records N.script N.settings (map M.counts mappers.old.items) (map M.counts mappers.new.items)) }
{
    let mut split = 0;
    while split < splits {
        split = next_split(split, pull_one(mappers, reducers, p, split, reach)?);
    }
    Ok(())
}

// The history of the reducer of partition `p` is finished.
fn finish_one<N: RunName, E: Reach<N>, D: Taker<N, E>>(
    reducers: &mut Vec<D>,
    p: u8,
    begun: &[u8],
    reach: &mut E,
) -> Result<(), Fault>
    requires place { p < length reducers.old.items }
    requires home { (ms : List Mapper) × (x : Writer) × MayFinishHere p begun.now (actors_of ms (map D.reducer reducers.old.items) x) (E.deeds reach.old) }
    requires ends { HasReducers (E.deeds reach.old) }
    requires few { (E.deeds reach.old).setup.attempts ≤ 16 }
    ensures went { (ms : List Mapper) (x : Writer) → Went E.exact (Pulling p (splits_of (E.deeds reach.old).setup), world_of ms (map D.reducer reducers.old.items) x (E.deeds reach.old)) (place_after result (Pulling (p + 1) 0), world_of ms (map D.reducer reducers.new.items) x (E.deeds reach.new)) }
    ensures ends { (E.deeds reach.new).ends ≡ (E.deeds reach.old).ends }
    ensures count { length reducers.new.items ≡ length reducers.old.items }
    ensures memory { IfErr result (λ f. f ≡ Fault.NoMemory) }
{
    histories_may_finish();
    calls_are_due();
    match reducers[p as usize].finish(reach, begun) {
        Ok(()) => Ok(()),
        Err(_) => Err(Fault::NoMemory),
    }
}

/// Each reducer is given what it lacks, ascending, and its history is finished with these numbers of begun attempts.
pub(crate) fn pull_and_finish<N: RunName, E: Reach<N>, M: Store<N, E>, D: Taker<N, E>>(
    mappers: &mut Vec<M>,
    reducers: &mut Vec<D>,
    begun: &[u8],
    reach: &mut E,
) -> Result<(), Fault>
    requires home { (x : Writer) × Pulls 0 0 (actors_of (map M.mapper mappers.old.items) (map D.reducer reducers.old.items) x) (E.deeds reach.old) }
    requires begun { (rs : List Reducer) (x : Writer) → AreBegunBy (actors_of (map M.mapper mappers.old.items) rs x) (E.deeds reach.old).setup begun.now }
    requires ends { HasReducers (E.deeds reach.old) }
    requires sized { IsSized (E.deeds reach.old).setup }
    requires well { AreWell M.failed M.fits (E.deeds reach.old).ends.board mappers.old.items }
    ensures went { (x : Writer) → Went E.exact (Pulling 0 0, world_of (map M.mapper mappers.old.items) (map D.reducer reducers.old.items) x (E.deeds reach.old)) (place_after result Writing, world_of (map M.mapper mappers.new.items) (map D.reducer reducers.new.items) x (E.deeds reach.new)) }
    ensures ends { (E.deeds reach.new).ends ≡ (E.deeds reach.old).ends }
    ensures count { length reducers.new.items ≡ length reducers.old.items }
    ensures same { map M.mapper mappers.new.items ≡ map M.mapper mappers.old.items }
    ensures well { AreWell M.failed M.fits (E.deeds reach.new).ends.board mappers.new.items }
    ensures counts { OnOk result (map M.counts mappers.new.items ≡ map M.counts mappers.old.items) }
    ensures cause { IfErr result (StoresStop N.job N.records N.script N.settings (map M.counts mappers.old.items) (map M.counts mappers.new.items)) }
{
    let splits = begun.len() as u32;
    for p in 0..reducers.len() as u8 {
        pull_all(mappers, reducers, p, splits, reach)?;
        finish_one(reducers, p, begun, reach)?;
    }
    Ok(())
}
