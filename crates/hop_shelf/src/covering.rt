//! What a history covers, and the runs of it.
ghost use Rattle.std.specs.Prelude.{◌≡◌, length, map, filter, IfOk};
ghost use Rattle.std.specs.List.{range_with_len};
ghost use Rattle.hop_fold.specs.Folding.{Folds};
ghost use Rattle.hop_event.specs.Coverage.{declared};
ghost use Rattle.hop_shelf.specs.Covered.{covers_in};
ghost use Rattle.hop_shelf.specs.Kept.{pairs_where};

use crate::journal::Journal;
use crate::kept::{Kept, Owner};
use hop_base::{Listed, NoMemory};
use hop_cover::{Declared, Declares};
use hop_fold::Folded;
use hop_laws::Job;
use hop_run::{Run, Runs};
use std::alloc::Global;

// Whether these declarations cover the runs of an owner.
fn covers(declarations: &[Option<Declared>], owner: Owner) -> bool
    ensures { result ≡ covers_in declarations.now owner }
{
    match owner {
        Owner::Committed => true,
        Owner::Attempt { split, attempt } => match declarations.get(split as usize) {
            Some(Some(d)) => d.attempt == attempt,
            _ => false,
        },
    }
}

/// Copies of the runs that these declarations cover.
pub(crate) fn runs_of(
    alloc: Global,
    declarations: &[Option<Declared>],
    kept: &[Kept],
) -> Result<Runs, NoMemory>
    ensures { IfOk result (λ runs. runs ≡ map (λ k. k.run) (filter (λ k. covers_in declarations.now k.owner) kept.now)) }
{
    let mut runs: Vec<Run> = Vec::new(alloc);
    for one in kept {
        if covers(declarations, one.owner) {
            runs.push(one.run.copy()?)?;
        }
    }
    Ok(Listed::from_vec(runs))
}

/// The pairs of the runs that these declarations cover, gathered to be reduced.
pub(crate) fn folded_of<J: Job>(
    alloc: Global,
    job: &J,
    declarations: &[Option<Declared>],
    kept: &[Kept],
) -> Result<Folded, NoMemory>
    ensures { IfOk result (λ folded. Folds (J.meaning job.now).reduced folded (pairs_where (λ k. covers_in declarations.now k.owner) kept.now)) }
{
    let mut folded = Folded::new(alloc)?;
    for one in kept {
        if covers(declarations, one.owner) {
            folded.take_sheet(alloc, job, one.run.flat())?;
        }
    }
    Ok(folded)
}

/// What each split declares.
pub(crate) fn declared_all(alloc: Global, journal: &Journal) -> Result<Declares, NoMemory>
    ensures { IfOk result (λ all. all ≡ map (declared journal.now.tentative journal.now.events) (range_with_len 0 (length journal.now.lens))) }
{
    let mut all = Listed::new(alloc);
    for i in 0..journal.splits() {
        all.push(journal.at(i))?;
    }
    Ok(all)
}
