//! Runs.
ghost use Rattle.std.specs.Prelude.{◌≡◌, ◌<◌, ◌≤◌, ℕ, List, ◌∷◌, [], ◌++◌, All, IfOk, Some, length, slice_get};
ghost use Rattle.std.specs.List.{flat_map};
ghost use Rattle.hop_base.specs.declared.part.Part.{Part};
ghost use Rattle.hop_base.specs.declared.value.Pair.{Pair};
ghost use Rattle.hop_base.specs.declared.value.Val.{Val};
ghost use Rattle.hop_base.specs.Flat.{pairs_text};
ghost use Rattle.hop_base.specs.Order.{IsSheet, IsValidPair, pair_cmp};
ghost use Rattle.hop_base.specs.Sorted.{ord};
ghost use Rattle.hop_laws.specs.Blocking.{part_pairs};
ghost use Rattle.hop_laws.specs.Groups.{red};
ghost use Rattle.hop_laws.specs.Stands.{combined_pairs};
ghost use Rattle.hop_records.specs.Records.{splits_of, len_of};

use crate::heads::Heads;
use crate::mapping::map_part;
use crate::merging::merge_sheets;
use crate::scattered::Kept;
use hop_base::{FlatSheet, FlatSheetBuilder, Listed, NoMemory, PairView, Part, Sheet, Text};
use hop_laws::{Job, combine_flat, reduce_flat};
use hop_records::Book;
use std::alloc::{AllocError, Global};
use std::marker::Model;

/// A sheet with the list of its parts, as the sorted runs of an external merge sort.
///
/// What matters of a run is what it stands for: with whatever values joins it, reduce gives the same
/// of the sheet as of the pairs that map emits for the records of the parts. Merging and combining
/// keep that, however often and in whatever order they are done.
///
/// The pairs are kept as bytes, as in a spill; a copy of a run shares them.
#[derive(Debug, Drop)]
pub struct Run {
    flat: FlatSheet,
    parts: Vec<Part>,
}

/// A list of runs.
pub type Runs = Listed<Run>;

impl Model for Run {
    ghost use Rattle.hop_run.specs.Runs.{RunValue};

    ghost Value = { RunValue };

    ghost view = { λ r. record { sheet = r.flat; parts = r.parts.items } };
}

impl Run {
    ghost use Rattle.hop_run.specs.Runs.{RunStands, empty_run};

    /// The run of no pairs and no parts. It takes no memory.
    pub fn empty(alloc: Global) -> Run
        ensures { result ≡ empty_run }
    {
        let flat = FlatSheet::empty(alloc);
        let parts = Vec::new(alloc);
        Run { flat, parts }
    }

    /// The sorted pairs of the part's records in partition `p` of `r`, where `r` is at most 8 and `p`
    /// below it. The part lies in a split of the book: it begins no later than it ends, and ends no
    /// later than the split.
    pub fn make<J: Job>(
        alloc: Global,
        job: &J,
        book: &Book,
        part: Part,
        p: u8,
        r: u8,
    ) -> Result<Run, NoMemory>
        requires split { part.split < splits_of book.now }
        requires ordered { part.from ≤ part.to }
        requires within { part.to ≤ len_of book.now part.split }
        requires below { p < r }
        requires few { r ≤ 8 }
        ensures sheet { IfOk result (λ run. run.sheet ≡ ord pair_cmp (part_pairs (J.meaning job.now) book.now.records book.now.split p r part)) }
        ensures parts { IfOk result (λ run. run.parts ≡ part ∷ []) }

        // It stands for its part.
        ensures stands { IfOk result (RunStands (J.meaning job.now).reduced (part_pairs (J.meaning job.now) book.now.records book.now.split p r)) }
    {
        let mut kept = Kept::new(alloc, p, r);
        map_part(alloc, job, book, part, &mut kept)?;
        let mut builder = FlatSheetBuilder::new(alloc);
        kept.pairs.sorted_into(&mut builder)?;
        let flat = builder.finish()?;
        let run = Run::of_part(alloc, flat, part)?;
        Ok(run)
    }

    /// A run of one part. After `NoMemory` the sheet is gone.
    pub fn of_sheet(alloc: Global, sheet: Sheet, part: Part) -> Result<Run, NoMemory>
        ensures { IfOk result (λ run. run ≡ record { sheet = sheet; parts = part ∷ [] }) }
    {
        let flat = FlatSheet::from_sheet(alloc, &sheet)?;
        Run::of_part(alloc, flat, part)
    }

    // The run of these pairs of one part.
    pub(crate) fn of_part(alloc: Global, flat: FlatSheet, part: Part) -> Result<Run, NoMemory>
        ensures { IfOk result (λ run. run ≡ record { sheet = flat; parts = part ∷ [] }) }
    {
        let mut parts = Vec::new(alloc);
        parts.push(part)?;
        Ok(Run { flat, parts })
    }

    /// The run of these pairs and parts. It takes no memory.
    pub fn of_flat(flat: FlatSheet, parts: Vec<Part>) -> Run
        ensures { result ≡ record { sheet = flat; parts = parts.items } }
    {
        Run { flat, parts }
    }

    /// The sorted union, and the parts of both joined in order. It is linear in both.
    pub fn merge(alloc: Global, a: &Run, b: &Run) -> Result<Run, NoMemory>
        ensures sheet { IfOk result (λ run. run.sheet ≡ ord pair_cmp (a.now.sheet ++ b.now.sheet)) }
        ensures parts { IfOk result (λ run. run.parts ≡ a.now.parts ++ b.now.parts) }

        // It stands for the parts of both.
        ensures stands { (reduce : List ℕ → List Val → List ℕ) (pairs_of : Part → List Pair)
            → ((part : Part) → All IsValidPair (pairs_of part))
            → RunStands reduce pairs_of a.now → RunStands reduce pairs_of b.now
            → IfOk result (RunStands reduce pairs_of) }
    {
        let flat = merge_sheets(alloc, &a.flat, &b.flat)?;
        let parts = joined(alloc, &a.parts, &b.parts)?;
        b.flat.known();
        Ok(Run { flat, parts })
    }

    /// The values of each key combined, and the same parts.
    pub fn combine<J: Job>(alloc: Global, job: &J, a: &Run) -> Result<Run, NoMemory>
        ensures sheet { IfOk result (λ run. run.sheet ≡ combined_pairs (J.meaning job.now).combined a.now.sheet) }
        ensures parts { IfOk result (λ run. run.parts ≡ a.now.parts) }

        // It stands for them still.
        ensures stands { (pairs_of : Part → List Pair)
            → RunStands (J.meaning job.now).reduced pairs_of a.now
            → IfOk result (RunStands (J.meaning job.now).reduced pairs_of) }
    {
        let flat = combine_flat(alloc, job, &a.flat)?;
        let parts = Vec::from_slice(alloc, &a.parts)?;
        a.flat.known();
        Ok(Run { flat, parts })
    }

    /// What reduce gives for each key and its values, the keys ascending, joined.
    pub fn reduce<J: Job>(alloc: Global, job: &J, a: &Run) -> Result<Text, NoMemory>
        ensures text { IfOk result (λ text. text ≡ red (J.meaning job.now).reduced a.now.sheet) }

        // It is the reduction of what the run stands for.
        ensures stands { (pairs_of : Part → List Pair)
            → RunStands (J.meaning job.now).reduced pairs_of a.now
            → IfOk result (λ text. text ≡ red (J.meaning job.now).reduced (flat_map pairs_of a.now.parts)) }
    {
        let text = reduce_flat(alloc, job, &a.flat)?;
        Ok(Text::from_vec(text))
    }

    /// An equal run, of the same bytes.
    pub fn copy(&self) -> Result<Run, NoMemory>
        ensures { IfOk result (λ run. run ≡ self.now) }
    {
        let flat = self.flat.copy()?;
        let parts = self.parts.clone()?;
        Ok(Run { flat, parts })
    }

    /// Its parts, in the order in which they were joined.
    pub fn parts(&self) -> &[Part]
        ensures { result.now ≡ self.now.parts }
    {
        &self.parts
    }

    /// The number of its pairs.
    pub fn len(&self) -> u64
        ensures { result ≡ length self.now.sheet }
    {
        self.flat.len()
    }

    /// Pair `k`, counted from 0 and below `len`.
    pub fn pair(&self, k: u64) -> PairView<'_>
        requires { k < length self.now.sheet }
        ensures { slice_get self.now.sheet k ≡ Some result }
    {
        self.flat.pair(k)
    }

    /// Its pairs as a sheet.
    pub fn to_sheet(&self) -> Result<Sheet, NoMemory>
        ensures { IfOk result (λ sheet. sheet ≡ self.now.sheet) }
    {
        self.flat.to_sheet()
    }

    /// The texts of its pairs in order, joined, as in a spill. It takes no memory.
    pub fn bytes(&self) -> &[u8]
        ensures { result.now ≡ pairs_text self.now.sheet }
    {
        self.flat.bytes()
    }

    /// Its pairs as they are kept.
    pub fn flat(&self) -> &FlatSheet
        ensures value { result.now ≡ self.now.sheet }
        ensures sheet { IsSheet self.now.sheet }
    {
        self.flat.known();
        &self.flat
    }

    /// The pairs of all these runs, in order. With n runs it makes about log n comparisons a pair.
    pub fn merged_pairs(alloc: Global, runs: &[Run]) -> Result<FlatSheet, NoMemory>
        ensures { IfOk result (λ flat. flat ≡ ord pair_cmp (flat_map (λ r. r.sheet) runs.now)) }
    {
        let mut heads = Heads::new(alloc);
        for run in runs {
            heads.add(&run.flat)?;
        }
        heads.merged()
    }
}

// The parts of both, in order.
fn joined(alloc: Global, a: &[Part], b: &[Part]) -> Result<Vec<Part>, AllocError>
    ensures { IfOk result (λ parts. parts.items ≡ a.now ++ b.now) }
{
    let mut parts = Vec::from_slice(alloc, a)?;
    parts.extend_from_slice(b)?;
    Ok(parts)
}
