//! A range that was fetched.
ghost use Rattle.std.specs.Prelude.{◌≡◌, ℕ, List, [], ◌∷◌, false, true, IfOk, IsTrue, is_ok};
ghost use Rattle.std.specs.List.{flat_map};
ghost use Rattle.hop_base.specs.Order.{IsSheet, pair_cmp};
ghost use Rattle.hop_base.specs.Sorted.{ord};
ghost use Rattle.hop_base.specs.declared.part.Part.{Part};
ghost use Rattle.hop_base.specs.declared.value.Pair.{Pair};
ghost use Rattle.hop_base.specs.declared.value.Val.{Val};
ghost use Rattle.hop_shelf.specs.Names.{pairs_of};
ghost use Rattle.hop_shelf.specs.Holds.{RunHolds};
ghost use Rattle.hop_machine.specs.step.Steps.{Runs, KeepEnd};
ghost use Rattle.hop_machine.specs.actors.ReducerTurns.{take_pull};
ghost use Rattle.hop_machine.specs.home.ReducerHome.{MayPull};
ghost use Rattle.hop_machine.specs.home.Conditions.{Safe};
ghost use Rattle.hop_inner.specs.Setups.{parts};
ghost use Rattle.hop_actors.specs.Spilled.{TogetherStand};

use crate::drain::Drain;
use hop_base::{FlatSheet, FlatSheets, NoMemory, Part, RunName};
use hop_event::Via;
use hop_inner::Reach;
use hop_laws::Job;
use hop_run::{Heads, Parcel, Run};
use std::alloc::Global;

// The pairs of all these sheets, in order.
fn merged(alloc: Global, sheets: &[FlatSheet]) -> Result<FlatSheet, NoMemory>
    ensures { IfOk result (λ flat. flat ≡ ord pair_cmp (flat_map (λ sheet. sheet) sheets.now)) }
{
    let mut heads = Heads::new(alloc);
    for sheet in sheets {
        heads.add(sheet)?;
    }
    heads.merged()
}

// The run of a part, of sheets that together stand for it.
fn run_of(part: Part, sheets: FlatSheets) -> Result<Run, NoMemory>
    ensures parts { IfOk result (λ run. run.parts ≡ part ∷ []) }
    ensures holds { (reduce : List ℕ → List Val → List ℕ) (pairs_of : Part → List Pair) → TogetherStand reduce sheets (pairs_of part) → IfOk result (RunHolds reduce pairs_of) }
{
    let sheets = sheets.into_vec();
    let alloc = *sheets.allocator();
    let flat = merged(alloc, &sheets)?;
    flat.known();
    let mut parts = Vec::new(alloc);
    parts.push(part)?;
    Ok(Run::of_flat(flat, parts))
}

impl<'a, N: RunName, J: Job> Drain<'a, N, J> {
    // The range is recorded, and the cuts that it makes due are due.
    pub(crate) fn record_pull<E: Reach<N>>(
        &self,
        reach: &mut E,
        part: Part,
        sheets: FlatSheets,
    ) -> Result<(), NoMemory>
        requires end { (E.deeds reach.old).ends.has (KeepEnd self.now.number) ≡ true }
        requires free { ((E.deeds reach.old).did.keeps self.now.number).held ≡ false }
        requires pull { MayPull self.now part (E.deeds reach.old) }
        requires stands { IsTrue N.tells → TogetherStand N.job.reduced sheets (pairs_of N.job N.records N.settings self.now.number part) }
        requires safe { Safe parts E.exact (take_pull self.now part) (E.deeds reach.old) }
        ensures { Runs E.exact (take_pull self.now part) (E.deeds reach.old) (is_ok result) (E.deeds reach.new) }
    {
        let mut shelf = self.hold(reach);
        self.fixed();
        shelf.known();
        if shelf.reserve().is_err() {
            self.give(reach, shelf);
            return Err(NoMemory);
        }
        match run_of(part, sheets) {
            Ok(run) => {
                shelf.arrive(Parcel { part, run }, Via::Pull);
                self.record_last(reach, shelf);
                Ok(())
            }
            Err(_) => {
                self.give(reach, shelf);
                Err(NoMemory)
            }
        }
    }
}
