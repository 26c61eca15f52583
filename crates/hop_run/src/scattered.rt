//! Sinks that part the pairs of a job by the partitions of their keys.
ghost use Rattle.std.specs.Prelude.{◌≡◌, ◌<◌, ◌≤◌, ◌∷◌, [], length, replicate, IfOk, OnOk};
ghost use Rattle.hop_base.specs.Fields.{pair_of};
ghost use Rattle.hop_laws.specs.Stands.{StandsWith};

use hop_base::NoMemory;
use hop_laws::{Gathered, Index, Job, PairSink, partition};
use std::alloc::Global;

// The index has 2 to the power of so many slots of 8 bytes: some more than a spill has keys, and few, since they are
// made anew for each spill.
const INDEX_BITS: u32 = 12;

// Pairs of each of 1 to 8 partitions, for a job. To combine, they stand for those that were taken: a number alone is
// joined to one of its key where one is found, so that few are put in order.
#[derive(Drop)]
pub(crate) struct Scattered<'a, J> {
    job: &'a J,
    pub(crate) lists: Vec<Gathered>,
    index: Index,
    ghost some: { 1 ≤ length lists.items },
    ghost few: { length lists.items ≤ 8 },
}

impl<'a, J: Job> Scattered<'a, J> {
    // No pairs of each of `r` partitions.
    pub(crate) fn new(alloc: Global, job: &'a J, r: u8) -> Result<Scattered<'a, J>, NoMemory>
        requires some { 1 ≤ r }
        requires few { r ≤ 8 }
        ensures empty { IfOk result (λ made. made.lists.items ≡ replicate r []) }
        ensures job { IfOk result (λ made. made.job.now ≡ job.now) }
    {
        let lists = empty_lists(alloc, r)?;
        let index = Index::new(alloc, INDEX_BITS)?;
        Ok(Scattered { job, lists, index })
    }
}

impl<J: Job> PairSink for Scattered<'_, J> {
    ghost use Rattle.std.specs.Prelude.{◌≡◌, refl};
    ghost use Rattle.std.proofs.Common.{ap, ◌∙◌};
    ghost use Rattle.hop_laws.specs.Taking.{TakesIn};
    ghost use Rattle.hop_laws.specs.TakingLaws.{none_taken, more_taken_by};

    ghost takes = { λ s ps t. (t.job.now ≡ s.job.now) × TakesIn (J.meaning s.job.now).combined s.lists.items ps t.lists.items };

    ghost takes_none = { λ s. (refl, none_taken (J.meaning s.job.now).combined s.lists.items) };

    ghost takes_more = { λ s t u ps qs h k. (k.0 ∙ h.0, more_taken_by (J.meaning s.job.now).combined (J.meaning t.job.now).combined s.lists.items t.lists.items u.lists.items ps qs (ap (λ j. (J.meaning j).combined) h.0) h.1 k.1) };

    fn take(&mut self, key: &[u8], number: u64, text: &[u8]) -> Result<(), NoMemory> {
        let p = partition(key, self.lists.len() as u8);
        add(
            self.job,
            &mut self.index,
            &mut self.lists[p as usize],
            key,
            number,
            text,
        )?;
        Ok(())
    }
}

// One more pair. A number alone is joined to one of its key, where one is found.
fn add<J: Job>(
    job: &J,
    index: &mut Index,
    list: &mut Gathered,
    key: &[u8],
    number: u64,
    text: &[u8],
) -> Result<(), NoMemory>
    requires short_key { length key.now ≤ 131071 }
    requires short_text { length text.now ≤ 131071 }
    ensures { OnOk result (StandsWith (J.meaning job.now).combined list.old (pair_of key.now number text.now ∷ []) list.new) }
{
    if text.is_empty() {
        if index.join(job, list, key, number) {
            return Ok(());
        }
    }
    list.take(key, number, text)?;
    Ok(())
}

// No pairs of each of r partitions.
fn empty_lists(alloc: Global, r: u8) -> Result<Vec<Gathered>, NoMemory>
    ensures { IfOk result (λ lists. lists.items ≡ replicate r []) }
{
    let mut lists = Vec::new(alloc);
    for _p in 0..r {
        lists.push(Gathered::new(alloc))?;
    }
    Ok(lists)
}

// The pairs of partition p of r, and none of the others.
#[derive(Drop)]
pub(crate) struct Kept {
    pub(crate) pairs: Gathered,
    p: u8,
    r: u8,
    ghost below: { p < r },
    ghost few: { r ≤ 8 },
}

impl Kept {
    // No pairs.
    pub(crate) fn new(alloc: Global, p: u8, r: u8) -> Kept
        requires below { p < r }
        requires few { r ≤ 8 }
        ensures pairs { result.pairs ≡ [] }
        ensures p { result.p ≡ p }
        ensures r { result.r ≡ r }
    {
        let pairs = Gathered::new(alloc);
        Kept { pairs, p, r }
    }
}

impl PairSink for Kept {
    ghost use Rattle.hop_run.specs.Scattering.{Keeps};
    ghost use Rattle.hop_run.specs.ScatteringLaws.{keeps_none, keeps_more};

    ghost takes = { λ s ps t. Keeps s.p s.r s.pairs ps t.p t.r t.pairs };

    ghost takes_none = { λ s. keeps_none s.p s.r s.pairs };

    ghost takes_more = { λ s t u ps qs h k. keeps_more s.p s.r t.p t.r u.p u.r s.pairs t.pairs u.pairs ps qs h k };

    fn take(&mut self, key: &[u8], number: u64, text: &[u8]) -> Result<(), NoMemory> {
        if partition(key, self.r) == self.p {
            self.pairs.take(key, number, text)?;
        }
        Ok(())
    }
}
