//! A list of pairs for each partition.
ghost use Rattle.std.specs.Prelude.{◌≡◌, ◌≤◌, ◌∷◌, [], ℕ, List, length, replicate, map, IfOk, OnOk};
ghost use Rattle.hop_laws.specs.Groups.{red};

use crate::folded::{Folded, LEAST};
use hop_base::{NoMemory, Texts};
use hop_laws::{Job, PairSink, partition};
use std::alloc::Global;

// The lists of 1 to 8 partitions, for a job.
#[derive(Drop)]
pub(crate) struct Lists<'a, J> {
    pub(crate) alloc: Global,
    pub(crate) job: &'a J,
    pub(crate) lists: Vec<Folded>,
    ghost some: { 1 ≤ length lists.items },
    ghost few: { length lists.items ≤ 8 },
}

impl<'a, J: Job> Lists<'a, J> {
    // No pairs of each of `r` partitions, 1 to 8.
    pub(crate) fn new(alloc: Global, job: &'a J, r: u8) -> Result<Lists<'a, J>, NoMemory>
        requires some { 1 ≤ r }
        requires few { r ≤ 8 }
        ensures empty { IfOk result (λ made. made.lists.items ≡ replicate r []) }
        ensures job { IfOk result (λ made. made.job.now ≡ job.now) }
    {
        let lists = empty_lists(alloc, r)?;
        Ok(Lists { alloc, job, lists })
    }
}

impl<J: Job> PairSink for Lists<'_, J> {
    ghost use Rattle.std.specs.Prelude.{◌≡◌, refl};
    ghost use Rattle.std.proofs.Common.{ap, ◌∙◌};
    ghost use Rattle.hop_laws.specs.Taking.{TakesIn};
    ghost use Rattle.hop_laws.specs.TakingLaws.{none_taken, more_taken_by};

    ghost takes = { λ s ps t. (t.job.now ≡ s.job.now) × TakesIn (J.meaning s.job.now).reduced s.lists.items ps t.lists.items };

    ghost takes_none = { λ s. (refl, none_taken (J.meaning s.job.now).reduced s.lists.items) };

    ghost takes_more = { λ s t u ps qs h k. (k.0 ∙ h.0, more_taken_by (J.meaning s.job.now).reduced (J.meaning t.job.now).reduced s.lists.items t.lists.items u.lists.items ps qs (ap (λ j. (J.meaning j).reduced) h.0) h.1 k.1) };

    fn take(&mut self, key: &[u8], number: u64, text: &[u8]) -> Result<(), NoMemory> {
        let p = partition(key, self.lists.len() as u8);
        self.lists[p as usize].add(self.alloc, self.job, key, number, text)?;
        Ok(())
    }
}

// No pairs of each of r partitions.
fn empty_lists(alloc: Global, r: u8) -> Result<Vec<Folded>, NoMemory>
    ensures { IfOk result (λ lists. lists.items ≡ replicate r []) }
{
    let mut lists = Vec::new(alloc);
    for _p in 0..r {
        let list = Folded::with_least(alloc, LEAST / r as usize)?;
        lists.push(list)?;
    }
    Ok(lists)
}

// The reduction of each list.
pub(crate) fn reduce_all<J: Job>(
    alloc: Global,
    job: &J,
    lists: Vec<Folded>,
) -> Result<Texts, NoMemory>
    ensures { IfOk result (λ texts. texts ≡ map (red (J.meaning job.now).reduced) lists.items) }
{
    let mut texts = Texts::new(alloc);
    for list in lists {
        texts.push(list.reduced(alloc, job)?)?;
    }
    Ok(texts)
}
