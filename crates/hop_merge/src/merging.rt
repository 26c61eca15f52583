//! Merging many runs.
ghost use Rattle.std.specs.Prelude.{◌≡◌, ℕ, List, All, IfOk};
ghost use Rattle.std.specs.List.{flat_map};
ghost use Rattle.hop_base.specs.declared.part.Part.{Part};
ghost use Rattle.hop_base.specs.declared.value.Pair.{Pair};
ghost use Rattle.hop_base.specs.declared.value.Val.{Val};
ghost use Rattle.hop_base.specs.Order.{IsValidPair, pair_cmp};
ghost use Rattle.hop_base.specs.Sorted.{ord};
ghost use Rattle.hop_run.specs.Runs.{RunStands};

use hop_base::{NoMemory, Part};
use hop_run::Run;
use std::alloc::Global;

/// What merging the runs one after the other gives, from the first to the last: the pairs of all of
/// them in order, and their parts joined in their order. No runs give the empty run. The least pair
/// among the first ones of all runs comes next, so each pair is copied once, and with n runs costs about
/// log n comparisons.
pub fn merge_all(alloc: Global, runs: &[Run]) -> Result<Run, NoMemory>
    ensures sheet { IfOk result (λ run. run.sheet ≡ ord pair_cmp (flat_map (λ r. r.sheet) runs.now)) }
    ensures parts { IfOk result (λ run. run.parts ≡ flat_map (λ r. r.parts) runs.now) }

    // It stands for the parts of all of them.
    ensures stands { (reduce : List ℕ → List Val → List ℕ) (pairs_of : Part → List Pair)
        → ((part : Part) → All IsValidPair (pairs_of part))
        → All (RunStands reduce pairs_of) runs.now
        → IfOk result (RunStands reduce pairs_of) }
{
    let flat = Run::merged_pairs(alloc, runs)?;
    let parts = joined_parts(alloc, runs)?;
    flat.known();
    let run = Run::of_flat(flat, parts);
    Ok(run)
}

// The parts of all runs, in their order.
fn joined_parts(alloc: Global, runs: &[Run]) -> Result<Vec<Part>, NoMemory>
    ensures { IfOk result (λ parts. parts.items ≡ flat_map (λ r. r.parts) runs.now) }
{
    let mut parts = Vec::new(alloc);
    for run in runs {
        parts.extend_from_slice(run.parts())?;
    }
    Ok(parts)
}
