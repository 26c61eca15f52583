//! The commands `run`, `replay` and `chain`.
ghost use Rattle.std.specs.Prelude.{◌≡◌, ◌≤◌, ◌++◌, true, false, ℕ, [], All, length, map, vec_capacity, vec_len, IfOk, IfErr, OnOk};
ghost use Rattle.hop_base.specs.Run.{delay_of};
ghost use Rattle.hop_jobs.specs.Known.{known_meaning};
ghost use Rattle.hop_records.specs.Records.{IsBook};
ghost use Rattle.hop_replay.specs.Replayed.{Ran};
ghost use Rattle.hop_script.specs.TurnLines.{IsTurn};
ghost use Rattle.hop_words.specs.Names.{is_name};
ghost use Rattle.hop_words.specs.Options.{NamesFile, options_of, settings_of};
ghost use Rattle.hop_top.specs.Ends.{RunEnds, RunFails, RunSnaps};
ghost use Rattle.hop_top.specs.Faults.{FaultsAnswered};
ghost use Rattle.hop_top.specs.Meets.{MeetsOptions};
ghost use Rattle.hop_top.specs.Plans.{actors_in, given_by_plan};
ghost use Rattle.hop_top.specs.Spilling.{RunLeaves, LeavesSpills, all_tell};
ghost use Rattle.hop_top.specs.Work.{AsksRun};

use crate::answered::Answered;
use crate::check::{Plan, planned};
use crate::ending::{outcome_of, run_files, run_summary};
use crate::outcome::Outcome;
use crate::puts::hand_out;
use crate::reads::read_run;
use hop_base::{Settings, Text};
use hop_jobs::Known;
use hop_laws::Job;
use hop_ports::{Folder, OpenGate, Sink};
use hop_replay::{Replayed, RunEnd, replay};
use hop_words::Options;
use std::alloc::Global;
use std::marker::Brand;

// The folders behind the first `count` are taken out. The list of the others has room for them.
fn set_apart<V: Folder + Drop>(spills: &mut Vec<V>, count: u8, others: &mut Vec<V>)
    requires some { count ≤ vec_len spills.old }
    requires none { others.old.items ≡ [] }
    requires space { vec_len spills.old ≤ vec_capacity others.old }
    ensures count { vec_len spills.new ≡ count }
    ensures all { spills.new.items ++ others.new.items ≡ spills.old.items }
    ensures room { vec_capacity spills.old ≤ vec_capacity spills.new }
{
    while spills.len() > count as usize {
        match spills.pop() {
            Some(folder) => match others.insert(0, folder) {
                Ok(()) => {}
                Err(_) => unreachable!(),
            },
            None => unreachable!(),
        }
    }
}

// How a run ended, with the job folder.
#[derive(Drop)]
struct PlanEnd<F> {
    end: Result<RunEnd, Outcome>,
    folder: F,
}

// The run of the plan over the spill folders of its workers, which are the first ones. The others are kept apart. Its snapshots are put in the job folder.
fn run_plan<F: Folder, V: Folder + Drop>(
    alloc: Global,
    job: &Known,
    later: &[Known],
    plan: &Plan,
    settings: &Settings,
    folder: F,
    spills: &mut Vec<V>,
) -> PlanEnd<F>
    requires few { length later.now ≤ 3 }
    requires spills { vec_len spills.old ≡ 8 }
    requires book { IsBook plan.now.book }
    requires split { plan.now.book.split ≡ settings.now.split }
    requires turns { All (IsTurn (actors_in (settings_of settings.now))) plan.now.turns }
    requires delays { (w : ℕ) → delay_of plan.now.script w ≤ 10000 }
    requires alone { settings.now.backup ≡ false }
    ensures ran { IfOk result.end (λ end. Ran (given_by_plan (known_meaning job.now) (settings_of settings.now) plan.now) (all_tell settings.now.workers (map V.seen spills.old.items)) (record { before = map V.seen spills.old.items; after = map V.seen spills.new.items }) (record { begun = end.begun.items; histories = map (λ h. h.events) end.histories.items }) end.texts) }
    ensures snaps { IfOk result.end (λ end. RunSnaps (given_by_plan (known_meaning job.now) (settings_of settings.now) plan.now) (map known_meaning later.now) (all_tell settings.now.workers (map V.seen spills.old.items)) (record { begun = end.begun.items; histories = map (λ h. h.events) end.histories.items }) (F.seen folder) (F.seen result.folder)) }
    ensures fault { IfErr result.end (RunFails (given_by_plan (known_meaning job.now) (settings_of settings.now) plan.now) (map known_meaning later.now) (all_tell settings.now.workers (map V.seen spills.old.items)) (F.seen folder) (F.seen result.folder)) }
    ensures left { OnOk result.end (LeavesSpills settings.now.workers (record { before = map V.seen spills.old.items; after = map V.seen spills.new.items })) }
    ensures leaves { IfErr result.end (RunLeaves settings.now.workers (record { before = map V.seen spills.old.items; after = map V.seen spills.new.items })) }
    ensures count { vec_len spills.new ≡ 8 }
{
    let Ok(later) = Vec::from_slice(alloc, later) else {
        return PlanEnd {
            end: Err(Outcome::NoMemory),
            folder,
        };
    };
    let Ok(mut others) = Vec::with_capacity(alloc, spills.len()) else {
        return PlanEnd {
            end: Err(Outcome::NoMemory),
            folder,
        };
    };
    set_apart(spills, settings.workers, &mut others);
    let Replayed { end, folder } = replay::<Brand, Brand, F, V, Known, OpenGate>(
        alloc,
        job,
        later,
        &plan.book,
        &plan.script,
        settings,
        &plan.turns,
        &OpenGate,
        folder,
        spills,
    );
    match spills.append(&mut others) {
        Ok(()) => {}
        Err(_) => unreachable!(),
    }
    match end {
        Ok(end) => PlanEnd {
            end: Ok(end),
            folder,
        },
        Err(fault) => PlanEnd {
            end: Err(outcome_of(fault)),
            folder,
        },
    }
}

// What the run left is put and said.
fn finish<F: Folder, O: Sink>(
    alloc: Global,
    job: &Known,
    later: &[Known],
    plan: &Plan,
    settings: &Settings,
    end: RunEnd,
    folder: &mut F,
    out: &mut O,
) -> Outcome
    requires few { length later.now ≤ 3 }
    requires splits { vec_len end.begun ≤ 1024 }
    requires reducers { vec_len end.histories ≤ 8 }
    requires parts { length end.texts ≤ 8 }
    requires book { IsBook plan.now.book }
    requires split { plan.now.book.split ≡ settings.now.split }
    ensures ends { RunEnds (F.seen folder.old) (F.seen folder.new) (O.seen out.old) (O.seen out.new) (given_by_plan (known_meaning job.now) (settings_of settings.now) plan.now) (map known_meaning later.now) (record { begun = end.begun.items; histories = map (λ h. h.events) end.histories.items }) end.texts result }
    ensures answered { FaultsAnswered (F.seen folder.old) (F.seen folder.new) (O.seen out.old) (O.seen out.new) result }
{
    let RunEnd {
        begun,
        histories,
        texts,
    } = end;
    let Ok(name) = job.name(alloc) else {
        return Outcome::NoMemory;
    };
    let Ok(files) = run_files(
        alloc,
        &name,
        &begun,
        &histories,
        texts,
        later,
        settings.reducers,
    ) else {
        return Outcome::NoMemory;
    };
    let Ok(summary) = run_summary(
        alloc,
        plan.book.records(),
        plan.book.splits(),
        settings.reducers,
        settings.marks.as_slice().len() as u32,
        &begun,
        &histories,
        later,
    ) else {
        return Outcome::NoMemory;
    };
    hand_out(folder, out, &files, summary.as_str())
}

/// The pipelined job over the input, on one thread: the snapshots at its marks while it runs, a part file for each partition, and the trace. `later` are the jobs of a chain after the first, at most three: their snapshots
/// come with the last snapshot of each mark, and their part files at the end. The spill folders of the workers take their spills, and the others are left alone. It has no backups.
pub fn run_job<F: Folder, V: Folder + Drop, O: Sink>(
    alloc: Global,
    job: &Known,
    later: &[Known],
    input: &Text,
    options: &Options,
    folder: F,
    spills: &mut Vec<V>,
    out: &mut O,
) -> Answered<F>
    requires few { length later.now ≤ 3 }
    requires spills { vec_len spills.old ≡ 8 }
    requires input { is_name input.now ≡ true }
    requires script { NamesFile options.now.script }
    requires turns { NamesFile options.now.turns }
    requires alone { options.now.settings.backup ≡ false }
    requires asked { AsksRun options.now.command (known_meaning job.now) (map known_meaning later.now) input.now }
    ensures meets { MeetsOptions (F.seen folder) (F.seen result.folder) (O.seen out.old) (O.seen out.new) (record { before = map V.seen spills.old.items; after = map V.seen spills.new.items }) (options_of options.now) result.outcome }
    ensures answered { FaultsAnswered (F.seen folder) (F.seen result.folder) (O.seen out.old) (O.seen out.new) result.outcome }
    ensures leaves { RunLeaves options.now.settings.workers (record { before = map V.seen spills.old.items; after = map V.seen spills.new.items }) result.outcome }
    ensures count { vec_len spills.new ≡ 8 }
{
    let settings = &options.settings;
    let mut folder = folder;
    let texts = match read_run(alloc, &mut folder, input, &options.script, &options.turns) {
        Ok(texts) => texts,
        Err(outcome) => return Answered { outcome, folder },
    };
    let plan = match planned(alloc, texts, settings) {
        Ok(plan) => plan,
        Err(outcome) => return Answered { outcome, folder },
    };
    let PlanEnd { end, mut folder } = run_plan(alloc, job, later, &plan, settings, folder, spills);
    match end {
        Ok(end) => {
            let outcome = finish(alloc, job, later, &plan, settings, end, &mut folder, out);
            Answered { outcome, folder }
        }
        Err(outcome) => Answered { outcome, folder },
    }
}
