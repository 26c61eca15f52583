//! Laws of the spills that a run makes. The functions do nothing.
ghost use Rattle.std.specs.Prelude.{ℕ, List, ◌<◌, ◌≤◌, length, All, slice_index_or, []};
ghost use Rattle.hop_base.specs.declared.part.Part.{Part};
ghost use Rattle.hop_laws.specs.Blocking.{part_pairs};
ghost use Rattle.hop_laws.specs.Stands.{StandsFor};
ghost use Rattle.hop_spill.specs.SpillFiles.{spill_made};

use hop_laws::Job;

/// Each sheet of a spill that a run makes stands for its range in its partition, for every job: with
/// whatever values joins them, reduce gives the same of the sheet as of what map emits for the records.
pub fn made_sheets_stand<J: Job>(job: &J)
    ensures { (records : List (List ℕ)) (n p r : ℕ) (part : Part) → All (λ line. length line ≤ 131050) records → p < r
        → StandsFor (J.meaning job.now).reduced (slice_index_or (spill_made (J.meaning job.now) records n r part).sheets p []) (part_pairs (J.meaning job.now) records n p r part) }
{
    let _ = job;
}
