//! The top call.
ghost use Rattle.std.specs.Prelude.{◌≡◌, false, Some, map, vec_len};
ghost use Rattle.hop_words.specs.Options.{HasFiles, asked, options_of};
ghost use Rattle.hop_top.specs.Complete.{IsComplete, IsNeverDone, IsSpentSo};
ghost use Rattle.hop_top.specs.Faults.{FaultsAnswered};
ghost use Rattle.hop_top.specs.Meets.{Meets, MeetsOptions};
ghost use Rattle.hop_top.specs.Spilling.{SpillsLeft};

use crate::answered::Answered;
use crate::block::block;
use crate::outcome::Outcome;
use crate::run::run_job;
use hop_base::Words;
use hop_ports::{Folder, Gate, Sink};
use hop_words::{Command, Options, WordsFault, read_words};
use std::alloc::Global;
use std::sync::Wait;
use std::thread::Threads;

/// An answer, with the folders that were moved in for it, the spill folders in the same order.
#[derive(Drop)]
pub struct Handed<A, F, V> {
    pub answer: A,
    pub folder: F,
    pub spills: Vec<V>,
}

// Does what the options ask for.
fn run<F: Folder, V: Folder + Drop, O: Sink>(
    alloc: Global,
    options: &Options,
    folder: F,
    spills: &mut Vec<V>,
    out: &mut O,
) -> Answered<F>
    requires files { HasFiles options.now }
    requires spills { vec_len spills.old ≡ 8 }
    requires alone { options.now.settings.backup ≡ false }
    ensures meets { MeetsOptions (F.seen folder) (F.seen result.folder) (O.seen out.old) (O.seen out.new) (record { before = map V.seen spills.old.items; after = map V.seen spills.new.items }) (options_of options.now) result.outcome }
    ensures answered { FaultsAnswered (F.seen folder) (F.seen result.folder) (O.seen out.old) (O.seen out.new) result.outcome }
    ensures left { SpillsLeft (Some (options_of options.now)) (record { before = map V.seen spills.old.items; after = map V.seen spills.new.items }) result.outcome }
    ensures count { vec_len spills.new ≡ 8 }
{
    let settings = &options.settings;
    match &options.command {
        Command::Block { job, input } => {
            let mut folder = folder;
            let outcome = block(alloc, job, input, settings, &mut folder, out);
            Answered { outcome, folder }
        }
        Command::Run { job, input } | Command::Replay { job, input } => {
            run_job(alloc, job, &[], input, options, folder, spills, out)
        }
        Command::Chain { jobs, input } => {
            let [job, later @ ..] = jobs.as_slice() else {
                unreachable!()
            };
            run_job(alloc, job, later, input, options, folder, spills, out)
        }
    }
}

// Does what the words ask for.
fn answer<F: Folder, V: Folder + Drop, O: Sink>(
    alloc: Global,
    words: &Words,
    folder: F,
    spills: &mut Vec<V>,
    out: &mut O,
) -> Answered<F>
    requires { vec_len spills.old ≡ 8 }
    ensures meets { Meets (F.seen folder) (F.seen result.folder) (O.seen out.old) (O.seen out.new) (record { before = map V.seen spills.old.items; after = map V.seen spills.new.items }) (asked words.now) result.outcome }
    ensures answered { FaultsAnswered (F.seen folder) (F.seen result.folder) (O.seen out.old) (O.seen out.new) result.outcome }
    ensures left { SpillsLeft (asked words.now) (record { before = map V.seen spills.old.items; after = map V.seen spills.new.items }) result.outcome }
    ensures count { vec_len spills.new ≡ 8 }
{
    match read_words(alloc, words) {
        Ok(options) => run(alloc, &options, folder, spills, out),
        Err(WordsFault::Usage) => Answered {
            outcome: Outcome::Usage,
            folder,
        },
        Err(WordsFault::NoMemory) => Answered {
            outcome: Outcome::NoMemory,
            folder,
        },
    }
}

/// Does what the words ask for, on one thread: it reads the files that they name in `folder`, puts
/// files there, and writes one summary to `out`. `words` are those after the program's name, and
/// `spills` are the spill folders of the eight workers. It always returns.
///
/// The idea is the online MapReduce of T. Condie and others, "MapReduce Online", NSDI 2010.
pub fn hop_plain<F: Folder, V: Folder + Drop, O: Sink>(
    alloc: Global,
    words: &Words,
    folder: F,
    spills: Vec<V>,
    out: &mut O,
) -> Handed<Outcome, F, V>
    requires { vec_len spills ≡ 8 }
    ensures meets { Meets (F.seen folder) (F.seen result.folder) (O.seen out.old) (O.seen out.new) (record { before = map V.seen spills.items; after = map V.seen result.spills.items }) (asked words.now) result.answer }
    ensures answered { FaultsAnswered (F.seen folder) (F.seen result.folder) (O.seen out.old) (O.seen out.new) result.answer }
    ensures complete { IsComplete (F.seen folder) (F.seen result.folder) (O.seen out.old) (O.seen out.new) (record { before = map V.seen spills.items; after = map V.seen result.spills.items }) (asked words.now) result.answer }
    ensures doomed { IsNeverDone (F.seen folder) (F.seen result.folder) (O.seen out.old) (O.seen out.new) (record { before = map V.seen spills.items; after = map V.seen result.spills.items }) (asked words.now) result.answer }
    ensures spent { IsSpentSo (F.seen folder) (F.seen result.folder) (O.seen out.old) (O.seen out.new) (record { before = map V.seen spills.items; after = map V.seen result.spills.items }) (asked words.now) result.answer }
    ensures spills { SpillsLeft (asked words.now) (record { before = map V.seen spills.items; after = map V.seen result.spills.items }) result.answer }
    ensures count { vec_len result.spills ≡ 8 }
{
    let mut spills = spills;
    let Answered { outcome, folder } = answer(alloc, words, folder, &mut spills, out);
    Handed {
        answer: outcome,
        folder,
        spills,
    }
}

/// Does what the words ask for. The gate is passed where threads run; no command of today starts any.
pub fn hop<R, F, V, O, G>(
    rt: &R,
    alloc: Global,
    words: &Words,
    folder: F,
    spills: Vec<V>,
    out: &mut O,
    gate: &G,
) -> Handed<Outcome, F, V>
where
    R: Threads + Wait + Copy + Send + Sync,
    F: Folder + Send,
    V: Folder + Send + Drop,
    O: Sink,
    G: Gate + Sync,
    requires { vec_len spills ≡ 8 }
    ensures meets { Meets (F.seen folder) (F.seen result.folder) (O.seen out.old) (O.seen out.new) (record { before = map V.seen spills.items; after = map V.seen result.spills.items }) (asked words.now) result.answer }
    ensures answered { FaultsAnswered (F.seen folder) (F.seen result.folder) (O.seen out.old) (O.seen out.new) result.answer }
    ensures complete { IsComplete (F.seen folder) (F.seen result.folder) (O.seen out.old) (O.seen out.new) (record { before = map V.seen spills.items; after = map V.seen result.spills.items }) (asked words.now) result.answer }
    ensures doomed { IsNeverDone (F.seen folder) (F.seen result.folder) (O.seen out.old) (O.seen out.new) (record { before = map V.seen spills.items; after = map V.seen result.spills.items }) (asked words.now) result.answer }
    ensures spent { IsSpentSo (F.seen folder) (F.seen result.folder) (O.seen out.old) (O.seen out.new) (record { before = map V.seen spills.items; after = map V.seen result.spills.items }) (asked words.now) result.answer }
    ensures spills { SpillsLeft (asked words.now) (record { before = map V.seen spills.items; after = map V.seen result.spills.items }) result.answer }
    ensures count { vec_len result.spills ≡ 8 }
{
    let _ = rt;
    let _ = gate;
    hop_plain(alloc, words, folder, spills, out)
}
