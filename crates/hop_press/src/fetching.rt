//! Held ranges read back.
ghost use Rattle.std.specs.Prelude.{◌≡◌, ◌<◌, ◌∷◌, [], List, All, IsTrue, IsSome, IfOk, IfErr, OnOk};
ghost use Rattle.std.specs.List.{flat_map};
ghost use Rattle.hop_base.specs.declared.part.Part.{Part};
ghost use Rattle.hop_base.specs.declared.value.Pair.{Pair};
ghost use Rattle.hop_base.specs.Order.{IsValidPair, pair_cmp};
ghost use Rattle.hop_base.specs.Sorted.{ord};
ghost use Rattle.hop_laws.specs.Stands.{StandsFor};
ghost use Rattle.hop_run.specs.Runs.{RunStands};
ghost use Rattle.hop_ports.specs.Causes.{OnlyRead};
ghost use Rattle.hop_shelf.specs.Names.{pairs_of, IsRun};
ghost use Rattle.hop_inner.specs.Messages.{FitsParcel};
ghost use Rattle.hop_press.specs.Fits.{KeepsMade, IsWhole};
ghost use Rattle.hop_press.specs.Faults.{FlushCause, FlushAnswered, fault_in, pairs_in};

use crate::fault::FlushFault;
use hop_base::{FlatSheet, FlatSheets, NoMemory, Part, RunName};
use hop_laws::Job;
use hop_ports::Folder;
use hop_run::{Parcel, Run};
use hop_vault::{FetchFault, Vault};
use std::alloc::Global;

// The parcel of a held range: the sheets of its kept spills, merged and combined into one run of the range.
pub fn fetched<N: RunName, J: Job, V: Folder>(
    alloc: Global,
    job: &J,
    vault: &mut Vault<V>,
    part: Part,
    p: u8,
) -> Result<Parcel, FlushFault>
    requires run { IsRun N.job N.records N.settings }
    requires job { J.meaning job.now ≡ N.job }
    requires below { p < N.settings.reducers }
    requires keeps { KeepsMade N.job N.records N.settings (V.seen vault.old.folder).held vault.old.rows }
    requires tells { IsTrue N.tells → IsSome (V.seen vault.old.folder).held }
    requires whole { IsWhole vault.old.rows part }
    ensures part { IfOk result (λ parcel. parcel.part ≡ part) }
    ensures fits { IfOk result (FitsParcel N.tells N.job.reduced (pairs_of N.job N.records N.settings p)) }
    ensures rows { vault.new.rows ≡ vault.old.rows }
    ensures worker { vault.new.worker ≡ vault.old.worker }
    ensures left { OnlyRead (V.seen vault.old.folder) (V.seen vault.new.folder) }
    ensures no_fault { OnOk result ((V.seen vault.new.folder).gets ≡ (V.seen vault.old.folder).gets) }
    ensures answered { IfErr result (FlushAnswered (V.seen vault.old.folder) (V.seen vault.new.folder)) }
    ensures cause { IfErr result (FlushCause V.seen vault.old vault.new p) }
{
    let sheets = match vault.fetch_flat(part, p) {
        Ok(sheets) => sheets,
        Err(fault) => return Err(fault_of(fault)),
    };
    match joined(alloc, job, part, sheets) {
        Ok(run) => Ok(Parcel { part, run }),
        Err(NoMemory) => Err(FlushFault::NoMemory),
    }
}

// A fetch's fault as a flush's. A range that is held is kept.
fn fault_of(fault: FetchFault) -> FlushFault
    ensures { result ≡ fault_in fault }
{
    match fault {
        FetchFault::StoreFailed => FlushFault::SpillFailed,
        FetchFault::Damaged { at, kept, found } => FlushFault::Damaged { at, kept, found },
        FetchFault::Collides { at, place } => FlushFault::Collides { at, place },
        FetchFault::NotKept { .. } | FetchFault::NoMemory => FlushFault::NoMemory,
    }
}

// The sheets merged and combined, as a run of one part, the whole range. It stands for what the sheets together
// stand for: what map emits for a range is what it emits for its pieces, one after the other.
fn joined<J: Job>(alloc: Global, job: &J, part: Part, sheets: FlatSheets) -> Result<Run, NoMemory>
    ensures parts { IfOk result (λ run. run.parts ≡ part ∷ []) }
    ensures valid { IfOk result (λ run. All IsValidPair run.sheet) }
    ensures stands { (pairs_of : Part → List Pair)
        → (All IsValidPair (pairs_in sheets) → StandsFor (J.meaning job.now).reduced (ord pair_cmp (pairs_in sheets)) (pairs_of part))
        → IfOk result (RunStands (J.meaning job.now).reduced pairs_of) }
{
    let runs = runs_of(alloc, sheets)?;
    let merged = Run::merged_pairs(alloc, &runs)?;
    merged.known();
    let run = of_part(alloc, merged, part)?;
    let combined = Run::combine(alloc, job, &run)?;
    let _known = combined.flat();
    Ok(combined)
}

// Each sheet as a run, with no part: what they are of together is said once they are merged.
fn runs_of(alloc: Global, sheets: FlatSheets) -> Result<Vec<Run>, NoMemory>
    ensures { IfOk result (λ runs. flat_map (λ run. run.sheet) runs.items ≡ pairs_in sheets) }
{
    let mut runs = Vec::new(alloc);
    for sheet in sheets.into_vec() {
        runs.push(Run::of_flat(sheet, Vec::new(alloc)))?;
    }
    Ok(runs)
}

// The run of these pairs and this part.
fn of_part(alloc: Global, flat: FlatSheet, part: Part) -> Result<Run, NoMemory>
    ensures { IfOk result (λ run. run ≡ record { sheet = flat; parts = part ∷ [] }) }
{
    let mut parts = Vec::new(alloc);
    parts.push(part)?;
    Ok(Run::of_flat(flat, parts))
}
