//! The actors of a run are driven to its end, over any ends.
ghost use Rattle.std.specs.Prelude.{true, ◌≡◌, ◌≤◌, ◌<◌, ◌+◌, ◌-◌, ◌^◌, ℕ, List, false, [], length, map, All, IfOk, IfErr, OnOk, IsTrue, Some, None, slice_index_or};
ghost use Rattle.std.specs.List.{range_with_len, slice_get};
ghost use Rattle.hop_actors.specs.Spilled.{IsSpilled, OnlySpills};
ghost use Rattle.hop_laws.specs.Blocking.{blocking_texts};
ghost use Rattle.hop_records.specs.Records.{lens_of};
ghost use Rattle.hop_script.specs.TurnLines.{IsTurn, turn_count};
ghost use Rattle.hop_shelf.specs.Names.{book_of};
ghost use Rattle.hop_machine.specs.home.Conditions.{HasAll};
ghost use Rattle.hop_machine.specs.home.Said.{history_of};
ghost use Rattle.hop_machine.specs.play.Play.{Opening, Place, Went};
ghost use Rattle.hop_machine.specs.play.FirstState.{IsNew};
ghost use Rattle.hop_machine.specs.run.AllHome.{IsStart, Opens, RanToItsEnd};
ghost use Rattle.hop_settle.specs.Begun.{AreCounted};
ghost use Rattle.hop_settle.specs.Crews.{AreWell, IsSized, TurnsBelow, actors_of, world_of};
ghost use Rattle.hop_settle.specs.Lacking.{HasReducers};
ghost use Rattle.hop_settle.specs.Playing.{AreMergers, EndsAt, numbers, orders_of};
ghost use Rattle.hop_settle.specs.Stops.{CrewStops};
ghost use Rattle.hop_finish.specs.Left.{EachWon, IsFree};
ghost use Rattle.hop_replay.specs.Driven.{Drove};
ghost use Rattle.hop_replay.specs.Snapshots.{Wrote, WroteUntil};

use crate::writing_laws::writers_write_cuts;
use hop_actors::{Actor, Fault, SnapshotWriter, Store, Taker};
use hop_base::{Lens, NoMemory, RunName, Texts};
use hop_event::History;
use hop_finish::{Finished, take_finished};
use hop_inner::Reach;
use hop_laws::Job;
use hop_script::Turns;
use hop_settle::{count_begun, play, settle};
use std::alloc::Global;

/// What a run that came to its end left: of each split how many of its attempts were begun, and of each reducer its
/// history and the text of its part.
#[derive(Drop)]
pub struct RunEnd {
    pub begun: Vec<u8>,
    pub histories: Vec<History>,
    pub texts: Texts,
}

// The actors take the turns of the turn list, and then the run is settled.
fn drive<
    N: RunName,
    E: Reach<N>,
    M: Store<N, E>,
    D: Taker<N, E>,
    G: Actor<N, E>,
    W: SnapshotWriter<N, E>,
>(
    mappers: &mut Vec<M>,
    reducers: &mut Vec<D>,
    mergers: &mut Vec<G>,
    writer: &mut W,
    reach: &mut E,
    turns: &Turns,
) -> Result<(), Fault>
    requires actor { All (IsTurn (numbers (length mappers.old.items) (length reducers.old.items) (length mergers.old.items))) turns.now }
    requires few { length reducers.old.items ≤ 256 }
    requires home { Opens 0 (actors_of (map M.mapper mappers.old.items) (map D.reducer reducers.old.items) (W.writer writer.old)) (E.deeds reach.old) }
    requires ends { HasAll (E.deeds reach.old) }
    requires well { AreWell M.failed M.fits (E.deeds reach.old).ends.board mappers.old.items }
    requires merges { AreMergers G.acting mergers.old.items }
    requires mergers { AreWell G.failed G.fits (E.deeds reach.old).ends.board mergers.old.items }
    requires writer { W.failed writer.old ≡ false }
    requires fits { W.fits writer.old (E.deeds reach.old).ends.board }
    requires turns { TurnsBelow 1 (map M.mapper mappers.old.items) }
    requires sized { IsSized (E.deeds reach.old).setup }
    ensures ran { OnOk result (RanToItsEnd E.exact (Opening 0 (orders_of turns.now)) (world_of (map M.mapper mappers.old.items) (map D.reducer reducers.old.items) (W.writer writer.old) (E.deeds reach.old)) (world_of (map M.mapper mappers.new.items) (map D.reducer reducers.new.items) (W.writer writer.new) (E.deeds reach.new))) }
    ensures stopped { IfErr result (λ f. (at : Place) × Went E.exact (Opening 0 (orders_of turns.now), world_of (map M.mapper mappers.old.items) (map D.reducer reducers.old.items) (W.writer writer.old) (E.deeds reach.old)) (at, world_of (map M.mapper mappers.new.items) (map D.reducer reducers.new.items) (W.writer writer.new) (E.deeds reach.new)) × EndsAt f at) }
    ensures locks { OnOk result (HasReducers (E.deeds reach.new)) }
    ensures count { length mappers.new.items ≡ length mappers.old.items }
    ensures well { OnOk result (AreWell M.failed M.fits (E.deeds reach.new).ends.board mappers.new.items) }
    ensures counts { OnOk result (map M.counts mappers.new.items ≡ map M.counts mappers.old.items) }
    ensures put { OnOk result (W.counts writer.new ≡ W.counts writer.old) }
    ensures cause { IfErr result (CrewStops N.job N.records N.script N.settings (map M.counts mappers.old.items) (map M.counts mappers.new.items) (W.counts writer.old) (W.counts writer.new)) }
{
    let _lines = turns.turns();
    play(mappers, reducers, mergers, writer, reach, turns)?;
    settle(mappers, reducers, writer, reach)?;
    Ok(())
}

// What the mappers' folders hold. It does nothing: proofs learn it so.
pub(crate) fn know_folders<N: RunName, E: Reach<N>, M: Store<N, E>>(mappers: &Vec<M>)
    ensures spilled { (w : ℕ) (m : M) → slice_get mappers.now.items w ≡ Some m → M.failed m ≡ false → IsSpilled N.job N.records N.settings.split N.settings.reducers N.settings.spill (M.mapper m).rules.lens (M.mapper m).kept (slice_index_or N.spills (M.mapper m).number None) (M.held m) }
    ensures only { (w : ℕ) (m : M) → slice_get mappers.now.items w ≡ Some m → OnlySpills (slice_index_or N.spills (M.mapper m).number None) (M.held m) }
{
    for w in 0..mappers.len() {
        mappers[w].known();
    }
}

// What the run left, read off its mappers and taken from under the reducers' locks.
fn run_end<N: RunName, E: Reach<N>, M: Store<N, E>, J: Job>(
    alloc: Global,
    job: &J,
    mappers: &Vec<M>,
    splits: u32,
    reducers: u8,
    reach: &mut E,
) -> Result<RunEnd, NoMemory>
    requires splits { splits ≤ 1024 }
    requires reducers { reducers ≡ N.settings.reducers }
    requires job { J.meaning job.now ≡ N.job }
    requires free { (p : ℕ) → p < reducers → IsFree (E.deeds reach.old) p }
    requires won { EachWon (lens_of (book_of N.records N.settings)) (E.deeds reach.old) reducers }
    ensures count { IfOk result (λ end. length end.begun.items ≡ splits) }
    ensures begun { IfOk result (λ end. AreCounted (map M.mapper mappers.now.items) end.begun.items) }
    ensures histories { IfOk result (λ end. map (λ h. h.events) end.histories.items ≡ map (history_of (E.deeds reach.old)) (range_with_len 0 reducers)) }
    ensures parts { IfOk result (λ end. length end.texts ≡ reducers) }
    ensures spilled { (w : ℕ) (m : M) → slice_get mappers.now.items w ≡ Some m → M.failed m ≡ false → IsSpilled N.job N.records N.settings.split N.settings.reducers N.settings.spill (M.mapper m).rules.lens (M.mapper m).kept (slice_index_or N.spills (M.mapper m).number None) (M.held m) }
    ensures only { (w : ℕ) (m : M) → slice_get mappers.now.items w ≡ Some m → OnlySpills (slice_index_or N.spills (M.mapper m).number None) (M.held m) }
    ensures texts { IfOk result (λ end. IsTrue N.tells → end.texts ≡ blocking_texts N.job N.records reducers) }
{
    know_folders(mappers);
    let mut begun = vec![in alloc; 0u8; splits as usize]?;
    count_begun(mappers, &mut begun);
    let Finished { histories, texts } = take_finished(alloc, job, reducers, reach)?;
    Ok(RunEnd {
        begun,
        histories,
        texts,
    })
}

/// Actors as they are made take the turns of the turn list and are settled, over exact ends, and what the run left is read off them. No mapper begins
/// backups.
///
/// At Ok the run came to its end, and it is the play of the turn list. The writer then put the cuts of each history, and else only of marks that were reached.
/// `SpentAt` comes only where that play ends so, and the script then has a line for each attempt of that split. No count of a folder's faults rises but the one that the fault tells of. At Ok, and also after a fault, in the spill folder
/// of each worker only files of spills were put.
pub fn run_to_end<
    N: RunName,
    E: Reach<N>,
    M: Store<N, E>,
    D: Taker<N, E>,
    G: Actor<N, E>,
    W: SnapshotWriter<N, E>,
    J: Job,
>(
    alloc: Global,
    job: &J,
    lens: &Lens,
    mappers: &mut Vec<M>,
    reducers: &mut Vec<D>,
    mergers: &mut Vec<G>,
    writer: &mut W,
    reach: &mut E,
    turns: &Turns,
) -> Result<RunEnd, Fault>
    requires exact { E.exact ≡ true }
    requires job { J.meaning job.now ≡ N.job }
    requires lens { lens.now ≡ lens_of (book_of N.records N.settings) }
    requires actor { All (IsTurn (numbers (length mappers.old.items) (length reducers.old.items) (length mergers.old.items))) turns.now }
    requires start { IsStart N.settings.backup (actors_of (map M.mapper mappers.old.items) (map D.reducer reducers.old.items) (W.writer writer.old)) (E.deeds reach.old) }
    requires new { IsNew N.settings.backup (world_of (map M.mapper mappers.old.items) (map D.reducer reducers.old.items) (W.writer writer.old) (E.deeds reach.old)) }
    requires alone { (m : M) → (M.mapper m).backup ≡ false }
    requires ends { HasAll (E.deeds reach.old) }
    requires well { AreWell M.failed M.fits (E.deeds reach.old).ends.board mappers.old.items }
    requires merges { AreMergers G.acting mergers.old.items }
    requires mergers { AreWell G.failed G.fits (E.deeds reach.old).ends.board mergers.old.items }
    requires writer { W.failed writer.old ≡ false }
    requires fits { W.fits writer.old (E.deeds reach.old).ends.board }
    requires sized { IsSized (E.deeds reach.old).setup }
    ensures drove { IfOk result (λ end. Drove (record { job = N.job; records = N.records; script = N.script; settings = N.settings; turns = turns.now }) N.tells (map M.mapper mappers.new.items) (record { begun = end.begun.items; histories = map (λ h. h.events) end.histories.items }) end.texts) }
    ensures wrote { IfOk result (λ end. Wrote (record { job = N.job; records = N.records; script = N.script; settings = N.settings; turns = turns.now }) (record { begun = end.begun.items; histories = map (λ h. h.events) end.histories.items }) (W.writer writer.new).writings) }
    ensures until { IfErr result (λ f. WroteUntil (record { job = N.job; records = N.records; script = N.script; settings = N.settings; turns = turns.now }) f (W.writer writer.new).writings) }
    ensures count { length mappers.new.items ≡ length mappers.old.items }
    ensures numbers { OnOk result ((w : ℕ) (m : M) → slice_get mappers.new.items w ≡ Some m → (M.mapper m).number ≡ w) }
    ensures well { OnOk result ((w : ℕ) (m : M) → slice_get mappers.new.items w ≡ Some m → M.failed m ≡ false) }
    ensures spilled { OnOk result ((w : ℕ) (m : M) → slice_get mappers.new.items w ≡ Some m → M.failed m ≡ false → IsSpilled N.job N.records N.settings.split N.settings.reducers N.settings.spill (M.mapper m).rules.lens (M.mapper m).kept (slice_index_or N.spills (M.mapper m).number None) (M.held m)) }
    ensures only { (w : ℕ) (m : M) → slice_get mappers.new.items w ≡ Some m → OnlySpills (slice_index_or N.spills w None) (M.held m) }
    ensures counts { OnOk result (map M.counts mappers.new.items ≡ map M.counts mappers.old.items) }
    ensures put { OnOk result (W.counts writer.new ≡ W.counts writer.old) }
    ensures cause { IfErr result (CrewStops N.job N.records N.script N.settings (map M.counts mappers.old.items) (map M.counts mappers.new.items) (W.counts writer.old) (W.counts writer.new)) }
{
    writers_write_cuts();
    let splits = lens.as_slice().len() as u32;
    let partitions = reducers.len() as u8;
    match drive(mappers, reducers, mergers, writer, reach, turns) {
        Ok(()) => {}
        Err(fault) => {
            know_folders(mappers);
            return Err(fault);
        }
    }
    match run_end(alloc, job, mappers, splits, partitions, reach) {
        Ok(end) => Ok(end),
        Err(NoMemory) => Err(Fault::NoMemory),
    }
}
