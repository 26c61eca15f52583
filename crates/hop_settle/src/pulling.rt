//! Pulls: what a reducer lacks is fetched from the mapper that kept it.
ghost use Rattle.std.specs.Prelude.{◌≡◌, ◌<◌, ◌≤◌, ℕ, List, length, map, IsTrue, IfOk, IfErr, OnOk, Some};
ghost use Rattle.std.specs.List.{slice_get};
ghost use Rattle.hop_shelf.specs.Names.{pairs_of};
ghost use Rattle.hop_machine.specs.declared.words.Turn.TheVariants as said;
ghost use Rattle.hop_machine.specs.step.Steps.{Runs};
ghost use Rattle.hop_machine.specs.home.ReducerHome.{MayPull};
ghost use Rattle.hop_machine.specs.play.Play.{kept_by, pull};
ghost use Rattle.hop_machine.specs.run.Catches.{AreHome};
ghost use Rattle.hop_actors.specs.Acting.{MayCall, said_fault};
ghost use Rattle.hop_actors.specs.Calls.{found};
ghost use Rattle.hop_actors.specs.Spilled.{TogetherStand};
ghost use Rattle.hop_settle.specs.Crews.{AreWell};
ghost use Rattle.hop_settle.specs.Pulled.{IsKeeper, MayAllFetch, MayPullAt, Pulled, records_pull};
ghost use Rattle.hop_settle.specs.Stops.{StoresStop};

use hop_actors::{Fault, Store, Taker};
use hop_base::{FlatSheets, NoMemory, Part, RunName};
use hop_inner::Reach;

// The mapper that kept most of an attempt: its place, and where the kept spills end.
#[derive(Clone, Copy)]
pub(crate) struct Keeper {
    pub(crate) place: usize,
    pub(crate) end: u32,
}

// Who kept most of the attempt. The end is 0 where nobody kept any.
pub(crate) fn keeper_of<N: RunName, E: Reach<N>, M: Store<N, E>>(
    mappers: &Vec<M>,
    split: u32,
    attempt: u8,
) -> Keeper
    ensures end { result.end ≡ kept_by (map M.mapper mappers.now.items) split attempt }
    ensures keeper { 0 < result.end → IsKeeper (map M.mapper mappers.now.items) split attempt result.place result.end }
{
    let mut best = Keeper { place: 0, end: 0 };
    for w in 0..mappers.len() {
        let end = mappers[w].kept(split, attempt);
        if end > best.end {
            best = Keeper { place: w, end };
        }
    }
    best
}

// The sheets of partition `p` of a range, which is fetched from the mapper that kept it.
fn fetch<N: RunName, E: Reach<N>, M: Store<N, E>>(
    mappers: &mut Vec<M>,
    part: Part,
    p: u8,
) -> Result<FlatSheets, Fault>
    requires partition { p < N.settings.reducers }
    requires some { part.from < part.to }
    requires kept { part.to ≡ kept_by (map M.mapper mappers.old.items) part.split part.attempt }
    requires may { MayAllFetch (map M.mapper mappers.old.items) part }
    ensures same { map M.mapper mappers.new.items ≡ map M.mapper mappers.old.items }
    ensures well { (board : List ℕ) → AreWell M.failed M.fits board mappers.old.items → AreWell M.failed M.fits board mappers.new.items }
    ensures stands { IfOk result (λ sheets. IsTrue N.tells → TogetherStand N.job.reduced sheets (pairs_of N.job N.records N.settings p part)) }
    ensures counts { OnOk result (map M.counts mappers.new.items ≡ map M.counts mappers.old.items) }
    ensures cause { IfErr result (StoresStop N.job N.records N.script N.settings (map M.counts mappers.old.items) (map M.counts mappers.new.items)) }
    ensures stops { IfErr result (λ fault. said_fault fault ≡ said.Stopped) }
{
    let keeper = keeper_of::<N, E, M>(mappers, part.split, part.attempt);
    mappers[keeper.place].fetch_back(part, p)
}

// A range that was fetched is recorded, the cuts that are due are sent, and a restart that is due is recorded: whether there was one.
fn record_pull<N: RunName, E: Reach<N>, D: Taker<N, E>>(
    reducer: &mut D,
    part: Part,
    sheets: FlatSheets,
    reach: &mut E,
) -> Result<bool, NoMemory>
    requires may { MayCall (D.reducer reducer.old) (E.deeds reach.old) }
    requires pull { MayPull (D.reducer reducer.old) part (E.deeds reach.old) }
    requires stands { IsTrue N.tells → TogetherStand N.job.reduced sheets (pairs_of N.job N.records N.settings (D.reducer reducer.old).number part) }
    ensures { Runs E.exact (records_pull part (D.reducer reducer.old)) (E.deeds reach.old) (D.reducer reducer.new, found result) (E.deeds reach.new) }
{
    reducer.take_pull(reach, part, sheets)?;
    reducer.send_due(reach)?;
    reducer.restart_due(reach)
}

/// A range is pulled for the reducer of partition `p`: it is fetched from the mapper that kept it, up to the end of what was kept, and recorded; the cuts that are due are sent, and a
/// restart that is due is recorded. It answers whether there was one. A fault is the mapper's that failed to fetch, or want of memory.
pub(crate) fn pull_into<N: RunName, E: Reach<N>, M: Store<N, E>, D: Taker<N, E>>(
    mappers: &mut Vec<M>,
    reducer: &mut D,
    p: u8,
    part: Part,
    reach: &mut E,
) -> Result<bool, Fault>
    requires partition { p < N.settings.reducers }
    requires may { MayPullAt p part (D.reducer reducer.old) (E.deeds reach.old) }
    requires mappers { AreHome (map M.mapper mappers.old.items) (E.deeds reach.old) }
    requires kept { part.to ≡ kept_by (map M.mapper mappers.old.items) part.split part.attempt }
    requires well { AreWell M.failed M.fits (E.deeds reach.old).ends.board mappers.old.items }
    ensures runs { Runs E.exact (pull part (D.reducer reducer.old)) (E.deeds reach.old) (D.reducer reducer.new, found result) (E.deeds reach.new) }
    ensures same { map M.mapper mappers.new.items ≡ map M.mapper mappers.old.items }
    ensures well { AreWell M.failed M.fits (E.deeds reach.new).ends.board mappers.new.items }
    ensures counts { OnOk result (map M.counts mappers.new.items ≡ map M.counts mappers.old.items) }
    ensures cause { IfErr result (StoresStop N.job N.records N.script N.settings (map M.counts mappers.old.items) (map M.counts mappers.new.items)) }
    ensures stops { IfErr result (λ fault. said_fault fault ≡ said.Stopped) }
{
    let sheets = fetch::<N, E, M>(mappers, part, p)?;
    match record_pull(reducer, part, sheets, reach) {
        Ok(restarted) => Ok(restarted),
        Err(_) => Err(Fault::NoMemory),
    }
}

/// The same for the reducer at place `p` of a list.
pub(crate) fn pull<N: RunName, E: Reach<N>, M: Store<N, E>, D: Taker<N, E>>(
    mappers: &mut Vec<M>,
    reducers: &mut Vec<D>,
    p: u8,
    part: Part,
    reach: &mut E,
) -> Result<bool, Fault>
    requires partition { p < N.settings.reducers }
    requires place { p < length reducers.old.items }
    requires may { (r : D) → slice_get reducers.old.items p ≡ Some r → MayPullAt p part (D.reducer r) (E.deeds reach.old) }
    requires mappers { AreHome (map M.mapper mappers.old.items) (E.deeds reach.old) }
    requires kept { part.to ≡ kept_by (map M.mapper mappers.old.items) part.split part.attempt }
    requires well { AreWell M.failed M.fits (E.deeds reach.old).ends.board mappers.old.items }
    ensures pulled { Pulled E.exact p part (map D.reducer reducers.old.items) (E.deeds reach.old) (map D.reducer reducers.new.items) (found result) (E.deeds reach.new) }
    ensures same { map M.mapper mappers.new.items ≡ map M.mapper mappers.old.items }
    ensures well { AreWell M.failed M.fits (E.deeds reach.new).ends.board mappers.new.items }
    ensures counts { OnOk result (map M.counts mappers.new.items ≡ map M.counts mappers.old.items) }
    ensures cause { IfErr result (StoresStop N.job N.records N.script N.settings (map M.counts mappers.old.items) (map M.counts mappers.new.items)) }
    ensures stops { IfErr result (λ fault. said_fault fault ≡ said.Stopped) }
{
    pull_into(mappers, &mut reducers[p as usize], p, part, reach)
}
