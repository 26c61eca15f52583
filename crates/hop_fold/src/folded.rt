//! Pairs that are gathered to be reduced, few at a time.
ghost use Rattle.std.specs.Prelude.{◌≡◌, ◌≤◌, ◌∷◌, ◌++◌, [], List, length, IfOk, OnOk};
ghost use Rattle.hop_base.specs.declared.value.Pair.{Pair};
ghost use Rattle.hop_laws.specs.Groups.{red};
ghost use Rattle.hop_base.specs.Fields.{pair_of};
ghost use Rattle.hop_laws.specs.Stands.{KeepsStanding, StandsWith};
ghost use Rattle.hop_fold.specs.Folding.{Folds};

use hop_base::{FlatSheet, FlatSheetBuilder, NoMemory, Text};
use hop_laws::{Gathered, Index, Job, PairSink};
use std::alloc::Global;
use std::marker::Model;

// The index has 2 to the power of so many slots: those of 8 bytes stay in a processor's cache.
const INDEX_BITS: u32 = 15;

// So many pairs are kept before any are combined for the first time: few enough for a processor's cache.
pub(crate) const LEAST: usize = 16_384;

/// Pairs that are gathered to be reduced or combined, for one partition. A number alone is joined to one of its key as
/// it comes, where one is found, and all are combined each time that they have grown to some times as many, so there
/// are about as many as combine leaves, however many come: the combiner of MapReduce (OSDI 2004), before any pair is
/// put in order. What matters of them is what they stand for.
#[derive(Drop)]
pub struct Folded {
    pairs: Gathered,
    least: usize,
    limit: usize,
    index: Index,
}

impl Model for Folded {
    ghost use Rattle.std.specs.Prelude.{List};
    ghost use Rattle.hop_base.specs.declared.value.Pair.{Pair};

    ghost Value = { List Pair };

    ghost view = { λ f. f.pairs };
}

impl Folded {
    /// No pairs. It takes the memory of an index of 256 KiB.
    pub fn new(alloc: Global) -> Result<Folded, NoMemory>
        ensures { IfOk result (λ made. made ≡ []) }
    {
        Folded::with_least(alloc, LEAST)
    }

    // No pairs. Fewer than `least` are not combined.
    pub(crate) fn with_least(alloc: Global, least: usize) -> Result<Folded, NoMemory>
        ensures { IfOk result (λ made. made ≡ []) }
    {
        let index = Index::new(alloc, INDEX_BITS)?;
        Ok(Folded {
            pairs: Gathered::new(alloc),
            least,
            limit: least,
            index,
        })
    }

    /// The pairs of a sheet come to them.
    pub fn take_sheet<J: Job>(
        &mut self,
        alloc: Global,
        job: &J,
        sheet: &FlatSheet,
    ) -> Result<(), NoMemory>
        ensures { OnOk result ((pairs : List Pair) → Folds (J.meaning job.now).reduced self.old pairs → Folds (J.meaning job.now).reduced self.new (pairs ++ sheet.now)) }
    {
        sheet.known();
        for k in 0..sheet.len() {
            let pair = sheet.pair(k);
            self.add(alloc, job, pair.key, pair.n, pair.text)?;
        }
        Ok(())
    }

    // One more pair. A number alone is joined to one of its key, where one is found.
    pub(crate) fn add<J: Job>(
        &mut self,
        alloc: Global,
        job: &J,
        key: &[u8],
        number: u64,
        text: &[u8],
    ) -> Result<(), NoMemory>
        requires short_key { length key.now ≤ 131071 }
        requires short_text { length text.now ≤ 131071 }
        ensures { OnOk result (StandsWith (J.meaning job.now).reduced self.old (pair_of key.now number text.now ∷ []) self.new) }
    {
        if text.is_empty() {
            if self.index.join(job, &mut self.pairs, key, number) {
                return Ok(());
            }
        }
        self.append(alloc, job, key, number, text)
    }

    // One more pair, behind all. They are combined where they have grown to the limit.
    fn append<J: Job>(
        &mut self,
        alloc: Global,
        job: &J,
        key: &[u8],
        number: u64,
        text: &[u8],
    ) -> Result<(), NoMemory>
        requires short_key { length key.now ≤ 131071 }
        requires short_text { length text.now ≤ 131071 }
        ensures { OnOk result (StandsWith (J.meaning job.now).reduced self.old (pair_of key.now number text.now ∷ []) self.new) }
    {
        self.pairs.take(key, number, text)?;
        if self.pairs.len() >= self.limit {
            self.shrink(alloc, job)?;
        }
        Ok(())
    }

    // Combines the pairs, unless that would leave nearly all. Then there may be four times as many as are left, or
    // eight times where all are.
    fn shrink<J: Job>(&mut self, alloc: Global, job: &J) -> Result<(), NoMemory>
        ensures { OnOk result (KeepsStanding (J.meaning job.now).reduced self.old self.new) }
    {
        let apart = shrink_pairs(alloc, job, &mut self.pairs)?;
        let times = if apart { 8 } else { 4 };
        self.limit = self.pairs.len().saturating_mul(times).max(self.least);
        Ok(())
    }

    /// What reduce gives for each key of the pairs and its values, the keys ascending, joined.
    pub fn reduced<J: Job>(mut self, alloc: Global, job: &J) -> Result<Text, NoMemory>
        ensures { IfOk result (λ text. text ≡ red (J.meaning job.now).reduced self) }
    {
        let text = self.pairs.reduced(alloc, job)?;
        Ok(Text::from_vec(text))
    }

    /// The pairs in order, the values of each key combined. They stand for whatever these stand for.
    pub fn combined<J: Job>(mut self, alloc: Global, job: &J) -> Result<FlatSheet, NoMemory>
        ensures { IfOk result (KeepsStanding (J.meaning job.now).reduced self) }
    {
        let mut builder = FlatSheetBuilder::new(alloc);
        self.pairs.combined_into(alloc, job, &mut builder)?;
        let flat = builder.finish()?;
        Ok(flat)
    }
}

// Puts the pairs in order, and combines them unless they are mostly apart. It tells whether they are.
fn shrink_pairs<J: Job>(alloc: Global, job: &J, pairs: &mut Gathered) -> Result<bool, NoMemory>
    ensures { OnOk result (KeepsStanding (J.meaning job.now).reduced pairs.old pairs.new) }
{
    pairs.sort();
    if pairs.are_mostly_apart() {
        return Ok(true);
    }
    let mut fewer = Gathered::new(alloc);
    pairs.combined_into(alloc, job, &mut fewer)?;
    *pairs = fewer;
    Ok(false)
}
