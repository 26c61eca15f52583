//! A run with its writer of snapshots, over any mappers and any exact ends.
ghost use Rattle.std.specs.Prelude.{true, false, ◌≡◌, ◌≤◌, ℕ, List, length, map, All, IfOk, IfErr, OnOk, Some, None, slice_index_or, vec_len};
ghost use Rattle.std.specs.List.{slice_get};
ghost use Rattle.hop_actors.specs.Spilled.{IsSpilled, OnlySpills};
ghost use Rattle.hop_base.specs.Run.{delay_of};
ghost use Rattle.hop_inner.specs.Setups.{setup_of};
ghost use Rattle.hop_jobs.specs.Known.{known_meaning};
ghost use Rattle.hop_machine.specs.home.Conditions.{HasAll};
ghost use Rattle.hop_machine.specs.play.FirstState.{new_actors};
ghost use Rattle.hop_machine.specs.run.AllHome.{new_deeds};
ghost use Rattle.hop_script.specs.TurnLines.{IsTurn};
ghost use Rattle.hop_settle.specs.Crews.{AreWell};
ghost use Rattle.hop_settle.specs.Playing.{numbers};
ghost use Rattle.hop_settle.specs.Stops.{CrewStops};
ghost use Rattle.hop_start.specs.Given.{AreCounted};
ghost use Rattle.hop_replay.specs.Driven.{Drove};
ghost use Rattle.hop_replay.specs.Folders.{counts_seen};
ghost use Rattle.hop_replay.specs.Snapshots.{Snapped, SnappedUntil};

use crate::crew::run_crew;
use crate::driving::{RunEnd, know_folders};
use hop_actors::{Fault, Store};
use hop_base::{Lens, RunName, Settings};
use hop_inner::Reach;
use hop_jobs::Known;
use hop_laws::Job;
use hop_ports::{Folder, Gate};
use hop_script::Turns;
use hop_writer::{ChainName, NoSnapshots, Writer};
use std::alloc::Global;

/// How a run ended, with the job folder as its writer left it.
#[derive(Drop)]
pub struct Replayed<F> {
    pub end: Result<RunEnd, Fault>,
    pub folder: F,
}

/// New mappers of a run, its reducers and its writer, which puts snapshots in the job folder, and in a chain those of the later jobs, take the turns of the turn list and are settled, over exact
/// ends at which nothing was done. No mapper begins backups. The job folder is handed back, whatever is answered.
///
/// At Ok the run came to its end, it is the play of the turn list, each mapper's folder holds the spills that it kept, and the job folder the snapshots of
/// the cuts of its histories. After a fault the job folder holds those of cuts of marks that were reached.
pub(crate) fn run_with_snapshots<
    N: RunName,
    C: ChainName,
    E: Reach<N>,
    M: Store<N, E>,
    F: Folder,
    J: Job,
    G: Gate,
>(
    alloc: Global,
    job: &J,
    later: Vec<Known>,
    lens: &Lens,
    settings: &Settings,
    turns: &Turns,
    gate: &G,
    folder: F,
    mappers: &mut Vec<M>,
    reach: &mut E,
) -> Replayed<F>
    requires exact { E.exact ≡ true }
    requires job { J.meaning job.now ≡ N.job }
    requires later { map known_meaning later.items ≡ C.later }
    requires few { vec_len later ≤ 3 }
    requires counted { AreCounted N.records N.settings lens.now settings.now }
    requires delays { (w : ℕ) → delay_of N.script w ≤ 10000 }
    requires turns { All (IsTurn (numbers N.settings.workers N.settings.reducers 0)) turns.now }
    requires mappers { map M.mapper mappers.old.items ≡ (new_actors (setup_of N.records N.script N.settings) N.settings.backup).mappers }
    requires alone { (m : M) → (M.mapper m).backup ≡ false }
    requires well { AreWell M.failed M.fits (E.deeds reach.old).ends.board mappers.old.items }
    requires new { E.deeds reach.old ≡ new_deeds (setup_of N.records N.script N.settings) (E.deeds reach.old).ends }
    requires ends { HasAll (E.deeds reach.old) }
    requires folder { N.folder ≡ (F.seen folder).held }
    ensures drove { IfOk result.end (λ end. Drove (record { job = N.job; records = N.records; script = N.script; settings = N.settings; turns = turns.now }) N.tells (map M.mapper mappers.new.items) (record { begun = end.begun.items; histories = map (λ h. h.events) end.histories.items }) end.texts) }
    ensures snapped { IfOk result.end (λ end. Snapped (record { job = N.job; records = N.records; script = N.script; settings = N.settings; turns = turns.now }) C.later N.tells (record { begun = end.begun.items; histories = map (λ h. h.events) end.histories.items }) (F.seen folder) (F.seen result.folder)) }
    ensures until { IfErr result.end (λ f. SnappedUntil (record { job = N.job; records = N.records; script = N.script; settings = N.settings; turns = turns.now }) C.later N.tells f (F.seen folder) (F.seen result.folder)) }
    ensures count { length mappers.new.items ≡ length mappers.old.items }
    ensures spilled { OnOk result.end ((w : ℕ) (m : M) → slice_get mappers.new.items w ≡ Some m → IsSpilled N.job N.records N.settings.split N.settings.reducers N.settings.spill (M.mapper m).rules.lens (M.mapper m).kept (slice_index_or N.spills w None) (M.held m)) }
    ensures only { (w : ℕ) (m : M) → slice_get mappers.new.items w ≡ Some m → OnlySpills (slice_index_or N.spills w None) (M.held m) }
    ensures counts { OnOk result.end (map M.counts mappers.new.items ≡ map M.counts mappers.old.items) }
    ensures cause { IfErr result.end (CrewStops N.job N.records N.script N.settings (map M.counts mappers.old.items) (map M.counts mappers.new.items) (counts_seen (F.seen folder)) (counts_seen (F.seen result.folder))) }
{
    know_folders(mappers);
    match Writer::<N, C, F, J, G>::new(alloc, folder, later, job, lens, gate, settings) {
        Ok(mut writer) => {
            let end = run_crew(
                alloc,
                job,
                lens,
                settings,
                turns,
                mappers,
                &mut writer,
                reach,
            );
            writer.known();
            Replayed {
                end,
                folder: writer.into_folder(),
            }
        }
        Err(NoSnapshots(folder)) => Replayed {
            end: Err(Fault::NoMemory),
            folder,
        },
    }
}
