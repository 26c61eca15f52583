//! The runs of a part in all partitions.
ghost use Rattle.std.specs.Prelude.{◌≡◌, ◌<◌, ◌≤◌, ℕ, IfOk, map, slice_index_or};
ghost use Rattle.std.specs.List.{range_with_len};
ghost use Rattle.hop_laws.specs.Blocking.{part_pairs};
ghost use Rattle.hop_records.specs.Records.{splits_of, len_of};
ghost use Rattle.hop_run.specs.Runs.{combined_run};
ghost use Rattle.hop_run.specs.Scattering.{combined_list};

use crate::mapping::map_part;
use crate::run::{Run, Runs};
use crate::scattered::Scattered;
use hop_base::{FlatSheetBuilder, Listed, NoMemory, Part};
use hop_laws::{Gathered, Job};
use hop_records::Book;
use std::alloc::Global;

impl Run {
    ghost use Rattle.hop_run.specs.Runs.{RunStands, empty_run};

    /// The combined runs of a part, one for each of the `r` partitions, 1 to 8 of them. The part lies in
    /// a split of the book, as for `make`.
    ///
    /// The records are mapped once. Where the job tells what two numbers of a key come to, a number is joined to one
    /// of its key as it comes, so that about as many pairs are put in order as there are keys; the runs are the same
    /// as those of all pairs.
    pub fn make_all<J: Job>(
        alloc: Global,
        job: &J,
        book: &Book,
        part: Part,
        r: u8,
    ) -> Result<Runs, NoMemory>
        requires split { part.split < splits_of book.now }
        requires ordered { part.from ≤ part.to }
        requires within { part.to ≤ len_of book.now part.split }
        requires some { 1 ≤ r }
        requires few { r ≤ 8 }
        ensures runs { IfOk result (λ runs. runs ≡ map (combined_run (J.meaning job.now) book.now.records book.now.split r part) (range_with_len 0 r)) }

        // Each stands for its part.
        ensures stands { IfOk result (λ runs. (p : ℕ) → p < r → RunStands (J.meaning job.now).reduced (part_pairs (J.meaning job.now) book.now.records book.now.split p r) (slice_index_or runs p empty_run)) }
    {
        let _known = book.records();
        let mut scattered = Scattered::new(alloc, job, r)?;
        map_part(alloc, job, book, part, &mut scattered)?;
        let runs = combine_lists(alloc, job, scattered.lists, part)?;
        Ok(runs)
    }
}

// The combined runs of the pairs of each partition.
fn combine_lists<J: Job>(
    alloc: Global,
    job: &J,
    lists: Vec<Gathered>,
    part: Part,
) -> Result<Runs, NoMemory>
    ensures { IfOk result (λ runs. runs ≡ map (combined_list (J.meaning job.now) part) lists.items) }
{
    let mut runs = Listed::new(alloc);
    for list in lists {
        runs.push(combined(alloc, job, list, part)?)?;
    }
    Ok(runs)
}

// The combined run of the pairs of a partition.
fn combined<J: Job>(alloc: Global, job: &J, mut list: Gathered, part: Part) -> Result<Run, NoMemory>
    ensures { IfOk result (λ run. run ≡ combined_list (J.meaning job.now) part list) }
{
    let mut builder = FlatSheetBuilder::new(alloc);
    list.combined_into(alloc, job, &mut builder)?;
    let flat = builder.finish()?;
    Run::of_part(alloc, flat, part)
}
