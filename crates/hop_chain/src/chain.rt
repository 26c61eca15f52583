//! The later jobs of a chain, computed from scratch.
ghost use Rattle.std.specs.Prelude.{◌≡◌, ◌≤◌, length, map, IfOk};
ghost use Rattle.hop_chain.specs.Chain.{chained_texts, last_texts};
ghost use Rattle.hop_jobs.specs.Known.{known_meaning};

use hop_base::{NoMemory, Texts};
use hop_fold::{block_lines, block_short_lines};
use hop_jobs::Known;
use std::alloc::Global;

// The texts of the last job, or these where there is none.
fn last_of<'a>(texts: &'a Texts, all: &'a [Texts]) -> &'a Texts
    ensures { result.now ≡ last_texts texts.entry.now all.entry.now }
{
    match all.last() {
        Some(last) => last,
        None => texts,
    }
}

/// The texts of up to three later jobs of a chain, for 1 to 8 partitions: each job reads the records of the texts of the job
/// before it, joined in the order of the partitions, and the first those of the texts that are given. The texts of a job may be
/// its parts, or its snapshots at one mark: then what comes are snapshots of the later jobs. Pipelining between jobs is an idea of
/// MapReduce Online (NSDI 2010), where a later job takes a snapshot of the job before it as its input and is computed from
/// scratch each time. Records of the texts that are given are left out where they have more than 65,556 bytes, and no text of a
/// job over an input has such a record, as `nothing_is_left_out` promises.
pub fn later(alloc: Global, jobs: &[Known], texts: &Texts, r: u8) -> Result<Vec<Texts>, NoMemory>
    requires few { length jobs.now ≤ 3 }
    requires some { 1 ≤ r }
    requires most { r ≤ 8 }
    ensures { IfOk result (λ all. all.items ≡ chained_texts (map known_meaning jobs.now) texts.now r) }
{
    let mut all = Vec::new(alloc);
    let Some((first, others)) = jobs.split_first() else {
        return Ok(all);
    };
    let read = block_short_lines(alloc, first, texts, r)?;
    all.push(read)?;
    for job in others {
        let before = last_of(texts, &all);
        let next = block_lines(alloc, job, before, r)?;
        all.push(next)?;
    }
    Ok(all)
}
