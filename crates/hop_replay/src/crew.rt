//! A run without mergers, over any mappers, any writer and any exact ends.
ghost use Rattle.std.specs.Prelude.{true, false, ◌≡◌, ◌≤◌, ℕ, List, length, map, All, IfOk, IfErr, OnOk, Some, None, slice_index_or};
ghost use Rattle.std.specs.List.{slice_get};
ghost use Rattle.hop_actors.specs.Spilled.{IsSpilled, OnlySpills};
ghost use Rattle.hop_base.specs.Run.{delay_of};
ghost use Rattle.hop_inner.specs.Setups.{setup_of};
ghost use Rattle.hop_machine.specs.home.Conditions.{HasAll};
ghost use Rattle.hop_machine.specs.home.Starts.{new_writer};
ghost use Rattle.hop_machine.specs.play.FirstState.{new_actors};
ghost use Rattle.hop_machine.specs.run.AllHome.{new_deeds};
ghost use Rattle.hop_script.specs.TurnLines.{IsTurn};
ghost use Rattle.hop_settle.specs.Crews.{AreWell};
ghost use Rattle.hop_settle.specs.Playing.{numbers};
ghost use Rattle.hop_settle.specs.Stops.{CrewStops};
ghost use Rattle.hop_start.specs.Given.{AreCounted};
ghost use Rattle.hop_replay.specs.Driven.{Drove};
ghost use Rattle.hop_replay.specs.Snapshots.{Wrote, WroteUntil};

use crate::driving::{RunEnd, know_folders, run_to_end};
use crate::size_laws::runs_are_sized;
use hop_actors::{Fault, SnapshotWriter, Store};
use hop_base::{Lens, RunName, Settings};
use hop_inner::Reach;
use hop_laws::Job;
use hop_script::Turns;
use hop_start::new_reducers;
use hop_start::start_laws::{new_actors_start, settings_make_a_setup};
use hop_writer::NoWriter;
use std::alloc::Global;

/// New mappers of a run without mergers, its reducers and a new writer take the turns of the turn list and are settled, over exact ends at which nothing
/// was done. No mapper begins backups.
///
/// At Ok the run came to its end, it is the play of the turn list, each mapper's folder holds the spills that it kept, and the writer put the cuts of each
/// history. In no mapper's folder anything else was put. `SpentAt` comes only where the play ends so. No count of a folder's faults rises but the one that the
/// fault tells of.
pub(crate) fn run_crew<N: RunName, E: Reach<N>, M: Store<N, E>, W: SnapshotWriter<N, E>, J: Job>(
    alloc: Global,
    job: &J,
    lens: &Lens,
    settings: &Settings,
    turns: &Turns,
    mappers: &mut Vec<M>,
    writer: &mut W,
    reach: &mut E,
) -> Result<RunEnd, Fault>
    requires exact { E.exact ≡ true }
    requires job { J.meaning job.now ≡ N.job }
    requires counted { AreCounted N.records N.settings lens.now settings.now }
    requires delays { (w : ℕ) → delay_of N.script w ≤ 10000 }
    requires turns { All (IsTurn (numbers N.settings.workers N.settings.reducers 0)) turns.now }
    requires mappers { map M.mapper mappers.old.items ≡ (new_actors (setup_of N.records N.script N.settings) N.settings.backup).mappers }
    requires alone { (m : M) → (M.mapper m).backup ≡ false }
    requires well { AreWell M.failed M.fits (E.deeds reach.old).ends.board mappers.old.items }
    requires new { E.deeds reach.old ≡ new_deeds (setup_of N.records N.script N.settings) (E.deeds reach.old).ends }
    requires ends { HasAll (E.deeds reach.old) }
    requires first { W.writer writer.old ≡ new_writer (setup_of N.records N.script N.settings) }
    requires writer { W.failed writer.old ≡ false }
    requires fits { W.fits writer.old (E.deeds reach.old).ends.board }
    ensures drove { IfOk result (λ end. Drove (record { job = N.job; records = N.records; script = N.script; settings = N.settings; turns = turns.now }) N.tells (map M.mapper mappers.new.items) (record { begun = end.begun.items; histories = map (λ h. h.events) end.histories.items }) end.texts) }
    ensures wrote { IfOk result (λ end. Wrote (record { job = N.job; records = N.records; script = N.script; settings = N.settings; turns = turns.now }) (record { begun = end.begun.items; histories = map (λ h. h.events) end.histories.items }) (W.writer writer.new).writings) }
    ensures until { IfErr result (λ f. WroteUntil (record { job = N.job; records = N.records; script = N.script; settings = N.settings; turns = turns.now }) f (W.writer writer.new).writings) }
    ensures count { length mappers.new.items ≡ length mappers.old.items }
    ensures spilled { OnOk result ((w : ℕ) (m : M) → slice_get mappers.new.items w ≡ Some m → IsSpilled N.job N.records N.settings.split N.settings.reducers N.settings.spill (M.mapper m).rules.lens (M.mapper m).kept (slice_index_or N.spills w None) (M.held m)) }
    ensures only { (w : ℕ) (m : M) → slice_get mappers.new.items w ≡ Some m → OnlySpills (slice_index_or N.spills w None) (M.held m) }
    ensures counts { OnOk result (map M.counts mappers.new.items ≡ map M.counts mappers.old.items) }
    ensures put { OnOk result (W.counts writer.new ≡ W.counts writer.old) }
    ensures cause { IfErr result (CrewStops N.job N.records N.script N.settings (map M.counts mappers.old.items) (map M.counts mappers.new.items) (W.counts writer.old) (W.counts writer.new)) }
{
    let _lens = lens.as_slice();
    know_folders(mappers);
    let Ok(mut reducers) = new_reducers::<N, J>(alloc, job, lens, settings) else {
        return Err(Fault::NoMemory);
    };
    let mut mergers: Vec<NoWriter<N>> = Vec::new(alloc);
    settings_make_a_setup::<N>(settings);
    new_actors_start();
    runs_are_sized();
    run_to_end(
        alloc,
        job,
        lens,
        mappers,
        &mut reducers,
        &mut mergers,
        writer,
        reach,
        turns,
    )
}
