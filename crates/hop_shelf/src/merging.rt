//! The runs of one owner as one run.
ghost use Rattle.std.specs.Prelude.{◌≡◌, ◌<◌, ◌++◌, ◌∷◌, [], List, ℕ, All, IfOk, map, filter, length, vec_len, vec_capacity};
ghost use Rattle.hop_base.specs.declared.part.Part.{Part};
ghost use Rattle.hop_base.specs.declared.value.Pair.{Pair};
ghost use Rattle.hop_base.specs.Order.{IsValidPair};
ghost use Rattle.hop_shelf.specs.Holds.{RunHolds};
ghost use Rattle.hop_fold.specs.Folding.{Folds};
ghost use Rattle.hop_shelf.specs.Kept.{all_parts, is_owners, is_anothers, pairs_where};

use crate::kept::{Kept, Owner};
use hop_base::{NoMemory, Part};
use hop_fold::Folded;
use hop_laws::Job;
use hop_run::Run;
use std::alloc::Global;
use std::cmp::Ordering;

// Whether the run is the owner's.
fn is_owners(one: &Kept, owner: Owner) -> bool
    ensures { result ≡ is_owners owner one.now }
{
    one.owner == owner
}

// Whether it is another's.
fn is_anothers(one: &Kept, owner: Owner) -> bool
    ensures { result ≡ is_anothers owner one.now }
{
    one.owner != owner
}

// The pairs of this owner's runs, gathered to be combined.
fn folded_of_owner<J: Job>(
    alloc: Global,
    job: &J,
    owner: Owner,
    kept: &[Kept],
) -> Result<Folded, NoMemory>
    ensures { IfOk result (λ folded. Folds (J.meaning job.now).reduced folded (pairs_where (is_owners owner) kept.now)) }
{
    let mut folded = Folded::new(alloc)?;
    for one in kept {
        if is_owners(one, owner) {
            folded.take_sheet(alloc, job, one.run.flat())?;
        }
    }
    Ok(folded)
}

// The parts of this owner's runs.
fn parts_of_owner(alloc: Global, owner: Owner, kept: &[Kept]) -> Result<Vec<Part>, NoMemory>
    ensures { IfOk result (λ parts. parts.items ≡ all_parts (filter (is_owners owner) kept.now)) }
{
    let mut parts = Vec::new(alloc);
    for one in kept {
        if is_owners(one, owner) {
            parts.extend_from_slice(one.run.parts())?;
        }
    }
    Ok(parts)
}

/// One run of all runs of this owner, the values of each key combined. It is one pass over them.
pub(crate) fn run_of_owner<J: Job>(
    alloc: Global,
    job: &J,
    owner: Owner,
    kept: &[Kept],
) -> Result<Run, NoMemory>
    ensures parts { IfOk result (λ run. run.parts ≡ all_parts (filter (is_owners owner) kept.now)) }

    // It stands for their parts, where each of them does.
    ensures holds { (pairs_of : Part → List Pair)
        → ((part : Part) → All IsValidPair (pairs_of part))
        → All (λ k. RunHolds (J.meaning job.now).reduced pairs_of k.run) kept.now
        → IfOk result (RunHolds (J.meaning job.now).reduced pairs_of) }
{
    let folded = folded_of_owner(alloc, job, owner, kept)?;
    let flat = folded.combined(alloc, job)?;
    let parts = parts_of_owner(alloc, owner, kept)?;
    flat.known();
    let run = Run::of_flat(flat, parts);
    Ok(run)
}

// So many pairs of the shorter run are looked up in the other.
const SAMPLES: u64 = 64;

/// Whether at least an eighth of some keys of the shorter run are keys of the other too: a guess of whether the runs of
/// their owner become much smaller as one. It looks up 64 keys or fewer.
pub(crate) fn are_alike(a: &Run, b: &Run) -> bool {
    if a.len() <= b.len() {
        has_keys_of(b, a)
    } else {
        has_keys_of(a, b)
    }
}

// Whether at least an eighth of some keys of a run, as far apart in it as they may be, are keys of another.
fn has_keys_of(run: &Run, other: &Run) -> bool {
    let step = other.len() / SAMPLES + 1;
    let mut looked_up = 0u64;
    let mut found = 0u64;
    let mut k = 0;
    while k < other.len() {
        looked_up = looked_up.saturating_add(1);
        if has_key(run, other.pair(k).key) {
            found = found.saturating_add(1);
        }
        k = k.saturating_add(step);
    }
    found >= looked_up / 8
}

// Whether a run has a pair of this key: the least pair that isn't below it is sought by halving.
fn has_key(run: &Run, key: &[u8]) -> bool {
    let mut low = 0;
    let mut high = run.len();
    while low < high {
        let middle = low + (high - low) / 2;
        match run.pair(middle).key.cmp(key) {
            Ordering::Less => low = middle + 1,
            Ordering::Equal => return true,
            Ordering::Greater => high = middle,
        }
    }
    false
}

/// The owner's runs give way to this one.
pub(crate) fn put_for_owner(kept: &mut Vec<Kept>, one: Kept)
    requires room { vec_len kept.old < vec_capacity kept.old }
    ensures { kept.new.items ≡ filter (is_anothers one.owner) kept.old.items ++ one ∷ [] }
{
    let owner = one.owner;
    kept.retain(|other| is_anothers(other, owner));
    kept.push_reserved(one);
}
