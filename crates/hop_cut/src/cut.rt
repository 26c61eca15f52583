//! Cuts, and the texts of their snapshots.
ghost use Rattle.std.specs.Prelude.{◌≡◌, ◌<◌, ℕ, List, IfOk, length};
ghost use Rattle.std.specs.List.{flat_map};
ghost use Rattle.hop_laws.specs.Groups.{red};
ghost use Rattle.hop_cut.specs.Snapshot.{header_lines, text_of};
ghost use Rattle.hop_cut.specs.Covered.{IsOfCoverage, snapshot_text, text_with, header_of};

use crate::texts::{push_first, push_splits};
use hop_base::{Lens, Listed, NoMemory, Text};
use hop_cover::Declares;
use hop_fold::Folded;
use hop_laws::Job;
use hop_run::{Run, Runs};
use std::alloc::Global;

/// What a reducer's history covers when it first reaches a mark, with the runs of it. (A snapshot of
/// NSDI 2010, "MapReduce Online", before it is reduced.)
#[derive(Debug, Drop)]
pub struct Cut {
    /// The mark, 1 to 10,000.
    pub mark: u16,
    /// The progress of what is covered, at most 10,000.
    pub progress: u16,
    /// What each split declares.
    pub declared: Declares,
    /// Runs that stand together for the ranges that are declared.
    pub runs: Runs,
}

/// A list of cuts.
pub type Cuts = Listed<Cut>;

/// The snapshot's text: its header, and the reduction of the cut's runs, for partition `p` of `r`. The
/// cut declares as many splits as `lens` has.
pub fn cut_text<J: Job>(
    alloc: Global,
    job: &J,
    p: u8,
    r: u8,
    lens: &Lens,
    cut: &Cut,
) -> Result<Text, NoMemory>
    requires each { length cut.now.declared ≡ length lens.now }
    ensures text { IfOk result (λ text. text ≡ text_with (header_of (J.meaning job.now).name cut.now.mark p r cut.now.progress lens.now cut.now.declared) (red (J.meaning job.now).reduced (flat_map (λ run. run.sheet) cut.now.runs))) }

    // It is the snapshot of the coverage that the cut declares.
    ensures snapshot { (records : List (List ℕ)) (n : ℕ)
        → IsOfCoverage (J.meaning job.now) records n p r lens.now cut.now
        → IfOk result (λ text. text ≡ snapshot_text (J.meaning job.now) records n p r lens.now cut.now.mark cut.now.declared) }
{
    written(alloc, job, p, r, lens, cut)
}

// The header and the reduction of the runs.
fn written<J: Job>(
    alloc: Global,
    job: &J,
    p: u8,
    r: u8,
    lens: &Lens,
    cut: &Cut,
) -> Result<Text, NoMemory>
    requires { length cut.now.declared ≡ length lens.now }
    ensures { IfOk result (λ text. text ≡ text_with (header_of (J.meaning job.now).name cut.now.mark p r cut.now.progress lens.now cut.now.declared) (red (J.meaning job.now).reduced (flat_map (λ run. run.sheet) cut.now.runs))) }
{
    let name = job.name(alloc)?;
    let mut text = header(alloc, name.as_slice(), p, r, lens, cut)?;
    let body = body(alloc, job, cut.runs.as_slice())?;
    text.extend_from_slice(body.as_slice())?;
    Ok(Listed::from_vec(text))
}

// The snapshot's header.
fn header(
    alloc: Global,
    name: &[u8],
    p: u8,
    r: u8,
    lens: &Lens,
    cut: &Cut,
) -> Result<Vec<u8>, NoMemory>
    requires { length cut.now.declared ≡ length lens.now }
    ensures { IfOk result (λ text. text.items ≡ text_of (header_lines (header_of name.now cut.now.mark p r cut.now.progress lens.now cut.now.declared))) }
{
    let mut text = Vec::new(alloc);
    push_first(&mut text, name, cut.mark, p, r, cut.progress)?;
    push_splits(&mut text, lens.as_slice(), cut.declared.as_slice())?;
    Ok(text)
}

// The reduction of all these runs together.
fn body<J: Job>(alloc: Global, job: &J, runs: &[Run]) -> Result<Text, NoMemory>
    ensures { IfOk result (λ text. text ≡ red (J.meaning job.now).reduced (flat_map (λ run. run.sheet) runs.now)) }
{
    let mut pairs = Folded::new(alloc)?;
    for run in runs {
        pairs.take_sheet(alloc, job, run.flat())?;
    }
    let text = pairs.reduced(alloc, job)?;
    Ok(text)
}
