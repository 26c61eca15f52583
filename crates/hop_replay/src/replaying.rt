//! A run on one thread, from what it is given to what it leaves.
ghost use Rattle.std.specs.Prelude.{false, ◌≡◌, ◌≤◌, ℕ, length, map, All, IfOk, IfErr, OnOk, vec_capacity, vec_len};
ghost use Rattle.hop_base.specs.Run.{delay_of};
ghost use Rattle.hop_inner.specs.Setups.{setup_of};
ghost use Rattle.hop_jobs.specs.Known.{known_meaning};
ghost use Rattle.hop_machine.specs.play.FirstState.{new_actors};
ghost use Rattle.hop_mapper.specs.Mappers.{mapper_of};
ghost use Rattle.hop_mapper.specs.Sound.{IsOfRun};
ghost use Rattle.hop_script.specs.TurnLines.{IsTurn};
ghost use Rattle.hop_settle.specs.Playing.{numbers};
ghost use Rattle.hop_settle.specs.Stops.{CrewStops};
ghost use Rattle.hop_start.specs.Given.{AreOfRun, AreSpillFolders};
ghost use Rattle.hop_start.specs.Made.{folder_of, AreFresh};
ghost use Rattle.hop_replay.specs.Driven.{Drove};
ghost use Rattle.hop_replay.specs.Folders.{counts_seen, AreSpilledBy, HaveOnlySpills, NoneFailed, OnlySpillsPut, Stopped};
ghost use Rattle.hop_replay.specs.Named.{NamesIts};
ghost use Rattle.hop_replay.specs.Replayed.{Ran};
ghost use Rattle.hop_replay.specs.Snapshots.{Snapped, SnappedUntil};

use crate::folder_laws::counts_tell_of_folders;
use crate::snapping::{Replayed, run_with_snapshots};
use hop_actors::Fault;
use hop_base::{Lens, RunName, Settings};
use hop_board::PlainSeat;
use hop_jobs::Known;
use hop_laws::Job;
use hop_mapper::Mapper;
use hop_ports::{Folder, Gate};
use hop_records::Book;
use hop_script::{Script, Turns};
use hop_start::{folders_back, lens_of_book, new_mappers, new_world};
use hop_writer::ChainName;
use std::alloc::Global;

// The mappers of a run take their turns in a world of one thread.
fn run_over<'a, N: RunName, C: ChainName, F: Folder, V: Folder + Drop, J: Job, G: Gate>(
    alloc: Global,
    job: &J,
    later: Vec<Known>,
    lens: &Lens,
    script: &Script,
    settings: &Settings,
    turns: &Turns,
    gate: &G,
    folder: F,
    mappers: &mut Vec<Mapper<'a, N, V, J, G, PlainSeat>>,
) -> Replayed<F>
    requires given { AreOfRun N.job N.records N.script N.settings lens.now script.now settings.now }
    requires job { J.meaning job.now ≡ N.job }
    requires later { map known_meaning later.items ≡ C.later }
    requires few { vec_len later ≤ 3 }
    requires turns { All (IsTurn (numbers N.settings.workers N.settings.reducers 0)) turns.now }
    requires alone { N.settings.backup ≡ false }
    requires delays { (w : ℕ) → delay_of N.script w ≤ 10000 }
    requires mappers { map (mapper_of N.records N.script N.settings) mappers.old.items ≡ (new_actors (setup_of N.records N.script N.settings) N.settings.backup).mappers }
    requires fresh { AreFresh N.job N.records N.settings N.tells mappers.old.items }
    requires only { HaveOnlySpills N.spills V.seen mappers.old.items }
    requires folder { N.folder ≡ (F.seen folder).held }
    ensures drove { IfOk result.end (λ end. Drove (record { job = N.job; records = N.records; script = N.script; settings = N.settings; turns = turns.now }) N.tells (map (mapper_of N.records N.script N.settings) mappers.new.items) (record { begun = end.begun.items; histories = map (λ h. h.events) end.histories.items }) end.texts) }
    ensures snapped { IfOk result.end (λ end. Snapped (record { job = N.job; records = N.records; script = N.script; settings = N.settings; turns = turns.now }) C.later N.tells (record { begun = end.begun.items; histories = map (λ h. h.events) end.histories.items }) (F.seen folder) (F.seen result.folder)) }
    ensures until { IfErr result.end (λ f. SnappedUntil (record { job = N.job; records = N.records; script = N.script; settings = N.settings; turns = turns.now }) C.later N.tells f (F.seen folder) (F.seen result.folder)) }
    ensures count { length mappers.new.items ≡ length mappers.old.items }
    ensures spilled { OnOk result.end (AreSpilledBy N.job N.records N.settings N.spills V.seen mappers.new.items) }
    ensures only { HaveOnlySpills N.spills V.seen mappers.new.items }
    ensures counts { OnOk result.end (map counts_seen (map V.seen (map folder_of mappers.new.items)) ≡ map counts_seen (map V.seen (map folder_of mappers.old.items))) }
    ensures cause { IfErr result.end (CrewStops N.job N.records N.script N.settings (map counts_seen (map V.seen (map folder_of mappers.old.items))) (map counts_seen (map V.seen (map folder_of mappers.new.items))) (counts_seen (F.seen folder)) (counts_seen (F.seen result.folder))) }
{
    let Ok(mut world) = new_world::<N>(alloc, lens, script, settings) else {
        return Replayed {
            end: Err(Fault::NoMemory),
            folder,
        };
    };
    run_with_snapshots::<N, C, _, _, _, _, _>(
        alloc, job, later, lens, settings, turns, gate, folder, mappers, &mut world,
    )
}

/// The run of a job over the records of a book, on one thread: workers and reducers take the turns of the turn list, as the script says they fail,
/// wait and restart, and then the run is settled. `folders` are the spill folders of the workers, in order, and they are the same ones afterwards.
/// `folder` is the job folder, in which a writer puts the snapshots, and it is handed back at every answer. `later` are the jobs of a chain after `job`, in order, at most three: with the last snapshot of each
/// mark the writer puts theirs. There are no backups.
///
/// At Ok the run is the play of its turn list, its histories are finished and agree, each spill folder holds what it held and exactly the spills
/// of its worker's attempts, the job folder what it held and the snapshots of the cuts of the histories, and where all spill folders tell, the texts are those
/// of the blocking job. `SpentAt` comes only where the play ends so. After a fault the job folder holds the snapshots of cuts of marks that were reached.
/// Nothing but spills was put in any spill folder, whatever is answered. No count of a folder's faults rises but the one that the fault tells of.
/// A damaged spill and one that collides are named by their range, which is that of a spill of the run; the digest that was kept is that of its text.
///
/// The idea is the pipelined run of T. Condie and others, "MapReduce Online", NSDI 2010.
pub fn replay<N: RunName, C: ChainName, F: Folder, V: Folder + Drop, J: Job, G: Gate>(
    alloc: Global,
    job: &J,
    later: Vec<Known>,
    book: &Book,
    script: &Script,
    settings: &Settings,
    turns: &Turns,
    gate: &G,
    folder: F,
    folders: &mut Vec<V>,
) -> Replayed<F>
    requires given { IsOfRun N.job N.records N.script N.settings (J.meaning job.now) book.now script.now settings.now }
    requires later { map known_meaning later.items ≡ C.later }
    requires few { vec_len later ≤ 3 }
    requires turns { All (IsTurn (numbers N.settings.workers N.settings.reducers 0)) turns.now }
    requires alone { N.settings.backup ≡ false }
    requires delays { (w : ℕ) → delay_of N.script w ≤ 10000 }
    requires folder { N.folder ≡ (F.seen folder).held }
    requires folders { AreSpillFolders N.tells N.spills N.settings.workers V.seen folders.old.items }
    ensures ran { IfOk result.end (λ end. Ran (record { job = N.job; records = N.records; script = N.script; settings = N.settings; turns = turns.now }) N.tells (record { before = map V.seen folders.old.items; after = map V.seen folders.new.items }) (record { begun = end.begun.items; histories = map (λ h. h.events) end.histories.items }) end.texts) }
    ensures snapped { IfOk result.end (λ end. Snapped (record { job = N.job; records = N.records; script = N.script; settings = N.settings; turns = turns.now }) C.later N.tells (record { begun = end.begun.items; histories = map (λ h. h.events) end.histories.items }) (F.seen folder) (F.seen result.folder)) }
    ensures until { IfErr result.end (λ f. SnappedUntil (record { job = N.job; records = N.records; script = N.script; settings = N.settings; turns = turns.now }) C.later N.tells f (F.seen folder) (F.seen result.folder)) }
    ensures count { length folders.new.items ≡ length folders.old.items }
    ensures only { OnlySpillsPut (record { before = map V.seen folders.old.items; after = map V.seen folders.new.items }) }
    ensures none { OnOk result.end (NoneFailed (record { before = map V.seen folders.old.items; after = map V.seen folders.new.items })) }
    ensures stopped { IfErr result.end (Stopped N.settings.workers (record { before = map V.seen folders.old.items; after = map V.seen folders.new.items })) }
    ensures named { IfErr result.end (NamesIts (record { job = N.job; records = N.records; script = N.script; settings = N.settings; turns = turns.now })) }
    ensures room { vec_capacity folders.old ≤ vec_capacity folders.new }
{
    counts_tell_of_folders();
    let Ok(lens) = lens_of_book(alloc, book) else {
        return Replayed {
            end: Err(Fault::NoMemory),
            folder,
        };
    };
    let Ok(mut mappers) = new_mappers::<N, V, J, G>(
        alloc, folders, book, job, script, gate, settings,
    ) else {
        return Replayed {
            end: Err(Fault::NoMemory),
            folder,
        };
    };
    let replayed = run_over::<N, C, F, V, J, G>(
        alloc,
        job,
        later,
        &lens,
        script,
        settings,
        turns,
        gate,
        folder,
        &mut mappers,
    );
    folders_back(mappers, folders);
    replayed
}
